//! The names of rules in a few words.

ghost use Rattle.std.specs.Prelude.{◌≡◌};
ghost use Rattle.score_picture.specs.Names.{rule_words as words_of_rule};

/// What a rule is called in a few words.
pub fn rule_words(rule: u8) -> &'static str
    ensures { result.now ≡ words_of_rule rule }
{
    match rule {
        1 => "out of the range",
        2 => "not in the mode",
        3 => "rhythm",
        4 => "melodic interval",
        5 => "struck again",
        6 => "two leaps",
        7 => "after a sixth",
        8 => "tritone between turns",
        9 => "too wide a line",
        10 => "crossing",
        11 => "unison",
        12 => "beginning",
        13 => "ending",
        14 => "dissonance",
        15 => "dissonance",
        16 => "parallels",
        17 => "hidden parallels",
        18 => "parallels from bar to bar",
        19 => "suspension not prepared",
        20 => "suspension not resolved",
        21 => "no suspension of this size",
        22 => "no cadence",
        23 => "leading note doubled",
        24 => "not on the final",
        25 => "quaver not by step",
        26 => "sharp doesn't rise",
        27 => "dissonance",
        28 => "moves under a suspension",
        _ => "",
    }
}
