//! The table of the commands: the first word of each, and what it takes behind that.

ghost use Rattle.std.specs.Prelude.{◌≡◌};
ghost use Rattle.std.specs.List.{find};
ghost use Rattle.command_words.specs.Verbs.{has_word, kind_of, name_of, row_of, verb_named};

/// A command, by its first word.
#[derive(Clone, Copy)]
pub enum Verb {
    /// The best setting of an exercise.
    Compose,
    /// The best setting of an exercise, found by sharper floors.
    Best,
    /// The certificate of the best setting of an exercise.
    Certify,
    /// The verdict on a certificate.
    Check,
    /// The marks of a setting.
    Mark,
    /// What is wrong with a text or its setting.
    Explain,
    /// The marks of a cantus firmus, and what it pays for.
    Cantus,
    /// The printed score of a setting, or of the sheet to hand out.
    Print,
    /// The MIDI file of a setting.
    ToSmf,
    /// The note text of a MIDI file.
    FromSmf,
    /// The note text of a MIDI file as an answer to a lesson.
    JoinSmf,
    /// The exercise of a number with its best setting.
    Drill,
    /// The report of the exercises in the files of a list.
    Class,
    /// The best canon.
    Canon,
    /// The best setting of an exercise whose free voices have a species each.
    Mixed,
    /// The marks of such a setting.
    MarkMixed,
    /// What a setting breaks and pays for.
    Weigh,
    /// The MusicXML document of an exercise.
    ToXml,
    /// The MusicXML document of a setting with the marks in red.
    MarkXml,
    /// The picture of an exercise.
    Picture,
    /// The picture of a setting with the marks in red.
    MarkPicture,
    /// The best new cantus.
    NewCantus,
    /// The certificate of the best new cantus.
    CertCantus,
    /// The verdict on such a certificate.
    CheckCantus,
}

/// All commands.
const VERBS: [Verb; 24] = [
    Verb::Compose,
    Verb::Best,
    Verb::Certify,
    Verb::Check,
    Verb::Mark,
    Verb::Explain,
    Verb::Cantus,
    Verb::Print,
    Verb::ToSmf,
    Verb::FromSmf,
    Verb::JoinSmf,
    Verb::Drill,
    Verb::Class,
    Verb::Canon,
    Verb::Mixed,
    Verb::MarkMixed,
    Verb::Weigh,
    Verb::ToXml,
    Verb::MarkXml,
    Verb::Picture,
    Verb::MarkPicture,
    Verb::NewCantus,
    Verb::CertCantus,
    Verb::CheckCantus,
];

/// Something that a command takes behind its first word.
#[derive(Clone, Copy)]
pub enum Part {
    /// The file of an exercise.
    Exercise,
    /// The file of a lesson that another file answers.
    Lessons,
    /// A file of another kind.
    File,
    /// The file of a certificate.
    Certificate,
    /// The file of a list.
    List,
    /// The number of a drill.
    Number,
    /// The mode of a new cantus.
    InMode,
    /// How many bars a new cantus has.
    Bars,
    /// The low end of the range of a new cantus.
    Low,
    /// The high end of the range of a new cantus.
    High,
    /// The file of a sheet of weights.
    Sheet,
    /// The budget of a search.
    Budget,
    /// Which one is sought, in order.
    Nth,
    /// The form of a certificate.
    Form,
    /// The species of voices, as a list.
    With,
    /// The species of voices, as a list that may be left out.
    MayWith,
    /// The cantus firmus alone in place of the setting.
    CantusAlone,
    /// The search that a setting is weighed against.
    Against,
    /// How many columns of a terminal a printed score has at most.
    Wrap,
    /// The penalty is to stand below the setting.
    Penalty,
    /// The file of a lesson.
    Lesson,
    /// A class is told of whole, also where a file can't be read.
    KeepGoing,
    /// A page is made of a class.
    Page,
    /// The files of a class are MIDI files.
    Midi,
    /// The mode of a MIDI file.
    Mode,
    /// The species of a MIDI file.
    Species,
    /// The voice of a MIDI file that the species is of.
    Voice,
    /// The voice of a MIDI file that has the cantus.
    Cantus,
    /// The tracks of a MIDI file begin with the top voice.
    TopFirst,
    /// Notes of a MIDI file that are held to most of their places are whole.
    Legato,
    /// The search of `best` in place of that of `compose`.
    BySharper,
}

/// How a part is given.
#[derive(Clone, Copy)]
pub enum Kind {
    /// By a word that must be there.
    Word,
    /// By an option with a value.
    Option,
    /// By an option with a value, which must be there.
    Needed,
    /// By a flag.
    Flag,
}

impl Verb {
    /// The row of a command: its first word, and what it takes behind that.
    pub fn row(self) -> (&'static str, &'static [Part])
        ensures word { result.0.now ≡ (row_of self).0 }
        ensures parts { result.1.now ≡ (row_of self).1 }
    {
        match self {
            Verb::Compose => (
                "compose",
                &[Part::Exercise, Part::Sheet, Part::Budget, Part::Nth],
            ),
            Verb::Best => ("best", &[Part::Exercise, Part::Sheet, Part::Budget]),
            Verb::Certify => (
                "certify",
                &[Part::Exercise, Part::Sheet, Part::Budget, Part::Form],
            ),
            Verb::Check => ("check", &[Part::Exercise, Part::Certificate, Part::Sheet]),
            Verb::Mark => ("mark", &[Part::Exercise, Part::Lesson]),
            Verb::Explain => ("explain", &[Part::File, Part::MayWith, Part::CantusAlone]),
            Verb::Cantus => ("cantus", &[Part::Exercise, Part::Sheet]),
            Verb::Print => ("print", &[Part::Exercise, Part::Wrap]),
            Verb::ToSmf => ("tosmf", &[Part::Exercise]),
            Verb::FromSmf => (
                "fromsmf",
                &[
                    Part::File,
                    Part::Mode,
                    Part::Species,
                    Part::Voice,
                    Part::Cantus,
                    Part::TopFirst,
                ],
            ),
            Verb::JoinSmf => (
                "joinsmf",
                &[Part::Lessons, Part::File, Part::TopFirst, Part::Legato],
            ),
            Verb::Drill => ("drill", &[Part::Number, Part::BySharper]),
            Verb::Class => (
                "class",
                &[
                    Part::List,
                    Part::Lesson,
                    Part::KeepGoing,
                    Part::Page,
                    Part::Midi,
                    Part::TopFirst,
                    Part::Legato,
                ],
            ),
            Verb::Canon => ("canon", &[Part::File, Part::Sheet, Part::Budget, Part::Nth]),
            Verb::Mixed => (
                "mixed",
                &[
                    Part::Exercise,
                    Part::Sheet,
                    Part::Budget,
                    Part::With,
                    Part::BySharper,
                ],
            ),
            Verb::MarkMixed => ("markmixed", &[Part::Exercise, Part::With]),
            Verb::Weigh => (
                "weigh",
                &[
                    Part::Exercise,
                    Part::Sheet,
                    Part::Budget,
                    Part::MayWith,
                    Part::Against,
                ],
            ),
            Verb::ToXml => ("toxml", &[Part::Exercise]),
            Verb::MarkXml => ("markxml", &[Part::Exercise, Part::MayWith]),
            Verb::Picture => ("picture", &[Part::Exercise, Part::Sheet, Part::Penalty]),
            Verb::MarkPicture => ("markpicture", &[Part::Exercise, Part::MayWith]),
            Verb::NewCantus => (
                "newcantus",
                &[
                    Part::InMode,
                    Part::Bars,
                    Part::Low,
                    Part::High,
                    Part::Sheet,
                    Part::Budget,
                    Part::Nth,
                ],
            ),
            Verb::CertCantus => (
                "certcantus",
                &[
                    Part::InMode,
                    Part::Bars,
                    Part::Low,
                    Part::High,
                    Part::Sheet,
                    Part::Budget,
                ],
            ),
            Verb::CheckCantus => (
                "checkcantus",
                &[
                    Part::InMode,
                    Part::Bars,
                    Part::Low,
                    Part::High,
                    Part::Certificate,
                    Part::Sheet,
                ],
            ),
        }
    }
}

impl Part {
    /// The name of a part, which the words have behind two hyphens where it is an option or a flag.
    pub fn name(self) -> &'static str
        ensures { result.now ≡ name_of self }
    {
        match self {
            Part::Exercise => "EX",
            Part::Lessons => "LESSON",
            Part::File => "FILE",
            Part::Certificate => "CERT",
            Part::List => "LIST",
            Part::Number => "N",
            Part::InMode => "MODE",
            Part::Bars => "BARS",
            Part::Low => "LOW",
            Part::High => "HIGH",
            Part::Sheet => "sheet",
            Part::Budget => "budget",
            Part::Nth => "nth",
            Part::Form => "form",
            Part::With | Part::MayWith => "with",
            Part::Against => "against",
            Part::Wrap => "wrap",
            Part::Penalty => "penalty",
            Part::Lesson => "lesson",
            Part::KeepGoing => "keep-going",
            Part::Page => "page",
            Part::Midi => "midi",
            Part::Mode => "mode",
            Part::Species => "species",
            Part::Voice => "voice",
            Part::Cantus | Part::CantusAlone => "cantus",
            Part::TopFirst => "top-first",
            Part::Legato => "legato",
            Part::BySharper => "best",
        }
    }

    /// How a part is given.
    pub fn kind(self) -> Kind
        ensures { result ≡ kind_of self }
    {
        match self {
            Part::Exercise
            | Part::Lessons
            | Part::File
            | Part::Certificate
            | Part::List
            | Part::Number
            | Part::InMode
            | Part::Bars
            | Part::Low
            | Part::High => Kind::Word,
            Part::Sheet
            | Part::Budget
            | Part::Nth
            | Part::Form
            | Part::MayWith
            | Part::Against
            | Part::Wrap
            | Part::Lesson => Kind::Option,
            Part::With | Part::Mode | Part::Species | Part::Voice | Part::Cantus => Kind::Needed,
            Part::Penalty
            | Part::KeepGoing
            | Part::Page
            | Part::Midi
            | Part::TopFirst
            | Part::Legato
            | Part::BySharper
            | Part::CantusAlone => Kind::Flag,
        }
    }
}

/// The command of a first word, if there is one.
pub fn verb_named(word: &str) -> Option<Verb>
    ensures { result ≡ verb_named word.now }
{
    first_named(&VERBS, word)
}

/// The first of these commands that has a word.
fn first_named(verbs: &[Verb], word: &str) -> Option<Verb>
    ensures { result ≡ find (has_word word.now) verbs.now }
{
    for verb in verbs {
        if has_word(word, *verb) {
            return Some(*verb);
        }
    }
    None
}

/// Whether a word is the first of a command.
fn has_word(word: &str, verb: Verb) -> bool
    ensures { result ≡ has_word word.now verb }
{
    let (first, _) = verb.row();
    word == first
}
