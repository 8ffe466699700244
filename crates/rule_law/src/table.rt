//! What is said of a rule beside its row.

ghost use Rattle.std.specs.Prelude.{◌≡◌, ◌≤◌, length, if◌then◌else◌};
ghost use Rattle.rule_law.specs.Forms as forms;

/// Which sets of voices a rule speaks of; for no other set is it broken.
#[derive(Clone, Copy, Debug, PartialEq, Eq)]
pub enum Form {
    /// Each voice alone.
    OneVoice,
    /// Each two voices.
    TwoVoices,
    /// All voices together.
    AllVoices,
}

/// From which columns a rule or a toll is read.
#[derive(Clone, Copy, Debug, PartialEq, Eq)]
pub enum Kind {
    /// From its own column alone.
    Column,
    /// From its own column and the one before it.
    Pair,
    /// From more columns.
    Window,
}

/// Where in a setting a rule may be broken.
#[derive(Clone, Copy, Debug, PartialEq, Eq)]
pub enum Stands {
    Anywhere,
    /// Where a bar begins.
    AtBars,
    /// Where the last bar begins.
    AtTheEnd,
}

/// The places at which a column may settle breaks of a late rule, in a row: the first, and how
/// many.
#[derive(Clone, Copy, Debug, PartialEq, Eq)]
pub struct LatePlaces {
    pub first: usize,
    pub count: usize,
}

impl LatePlaces {
    /// Column `i` alone, or no place where nothing can stand there.
    #[inline]
    pub fn own(may: bool, i: usize) -> LatePlaces
        ensures first { result.first ≡ i }
        ensures count { result.count ≡ (if may then 1 else 0) }
    {
        LatePlaces {
            first: i,
            count: usize::from(may),
        }
    }
}

/// The sets of one voice.
const SINGLE_VOICES: [u8; 4] = [1, 2, 4, 8];

const SINGLE_OF_TWO: [u8; 2] = [1, 2];

const SINGLE_OF_THREE: [u8; 3] = [1, 2, 4];

/// The sets of two voices.
const PAIRS: [u8; 6] = [3, 5, 6, 9, 10, 12];

const PAIR_OF_TWO: [u8; 1] = [3];

const PAIRS_OF_THREE: [u8; 3] = [3, 5, 6];

/// The sets of all voices, of two, three or four.
const ALL_OF_TWO: [u8; 1] = [3];

const ALL_OF_THREE: [u8; 1] = [7];

const ALL_OF_FOUR: [u8; 1] = [15];

/// The sets of one voice, of so many voices.
#[inline]
fn single_voices(voices: u8) -> &'static [u8]
    ensures { result.now ≡ forms.voice_sets_of voices }
{
    if voices == 2 {
        return &SINGLE_OF_TWO;
    }
    if voices == 3 {
        &SINGLE_OF_THREE
    } else {
        &SINGLE_VOICES
    }
}

/// The sets of two voices.
#[inline]
fn pairs(voices: u8) -> &'static [u8]
    ensures { result.now ≡ forms.pair_sets_of voices }
{
    if voices == 2 {
        return &PAIR_OF_TWO;
    }
    if voices == 3 { &PAIRS_OF_THREE } else { &PAIRS }
}

/// The set of all voices.
#[inline]
fn all_voices(voices: u8) -> &'static [u8]
    ensures { result.now ≡ forms.all_sets_of voices }
{
    if voices == 2 {
        return &ALL_OF_TWO;
    }
    if voices == 3 {
        &ALL_OF_THREE
    } else {
        &ALL_OF_FOUR
    }
}

/// The sets of voices of a form, of two to four voices, by their bits.
#[inline]
pub fn sets_of(form: Form, voices: u8) -> &'static [u8]
    ensures value { result.now ≡ forms.sets_of form voices }
    ensures few { length result.now ≤ 6 }
{
    match form {
        Form::OneVoice => single_voices(voices),
        Form::TwoVoices => pairs(voices),
        Form::AllVoices => all_voices(voices),
    }
}
