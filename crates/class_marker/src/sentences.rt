//! What each rule says, in a sentence.

ghost use Rattle.std.specs.Prelude.{◌≡◌};
ghost use Rattle.class_marker.specs.Sentences.{cantus_sentence, first_sentence, last_sentence, middle_sentence, rule_sentence};

/// The sentence of one of S1 to S9.
fn first_sentence(rule: u8) -> &'static str
    ensures { result.now ≡ first_sentence rule }
{
    match rule {
        1 => "This note lies outside the voice's range in this bar.",
        2 => "This note isn't one of the mode's notes in this bar.",
        3 => "The bar's notes and rests form none of the shapes of the species.",
        4 => "The voice moves by an interval that isn't sung.",
        5 => "A note is struck twice in a row.",
        6 => "Two leaps the same way make a dissonance or pass the octave.",
        7 => "After a leap of a sixth or more the voice doesn't turn back.",
        8 => "The voice turns a tritone away from where it turned before.",
        _ => "With this note the voice spans more than a tenth.",
    }
}

/// The sentence of one of S10 to S18.
fn middle_sentence(rule: u8) -> &'static str
    ensures { result.now ≡ middle_sentence rule }
{
    match rule {
        10 => "The lower voice goes above the upper one.",
        11 => "An inner bar begins with both voices on the same key.",
        12 => "The voice doesn't begin on a perfect interval.",
        13 => "The voices don't end on an interval that closes.",
        14 => "The bar begins on a dissonance that both voices strike.",
        15 => "A dissonance within the bar is no passing note and no ornament.",
        16 => "Both voices move from a perfect interval to an equal one.",
        17 => "The outer voices move the same way into a perfect interval.",
        _ => "Two bars begin with equal perfect intervals, and nothing hides it.",
    }
}

/// The sentence of one of S19 to S28.
fn last_sentence(rule: u8) -> &'static str
    ensures { result.now ≡ last_sentence rule }
{
    match rule {
        19 => "The suspended note isn't prepared as a consonance of half a bar.",
        20 => "The suspended note doesn't go down a step, to a consonance.",
        21 => "The suspension is of a size that doesn't serve.",
        22 => "No voice goes from the leading note to the final as cadences do.",
        23 => "The leading note sounds in two voices at once.",
        24 => "The lowest voice doesn't end on the final.",
        25 => "A quaver isn't reached and left by steps.",
        26 => "A sharpened note doesn't go up a step.",
        27 => "No note that starts there excuses a dissonance within the bar.",
        _ => "The other voice moves on before the suspended note resolves.",
    }
}

/// The sentence of one of K1 to K3, by the numbers that marks have of them.
fn cantus_sentence(rule: u8) -> &'static str
    ensures { result.now ≡ cantus_sentence rule }
{
    match rule {
        31 => "The cantus doesn't begin on the final.",
        32 => "The cantus doesn't end on the final.",
        _ => "The cantus doesn't end by a step down.",
    }
}

/// What a rule says, by the number that marks have of it.
pub fn rule_sentence(rule: u8) -> &'static str
    ensures { result.now ≡ rule_sentence rule }
{
    if rule <= 9 {
        return first_sentence(rule);
    }
    if rule <= 18 {
        return middle_sentence(rule);
    }
    if rule <= 28 {
        return last_sentence(rule);
    }
    cantus_sentence(rule)
}
