//! What is written is read back.

ghost use Rattle.std.specs.Prelude.{◌≡◌, ℕ, ◌≤◌, ◌++◌, Some, codes};
ghost use Rattle.std.specs.Fmt.{decimal};
ghost use Rattle.fux_pitch.specs.declared.mode.Mode.{Mode};
ghost use Rattle.fux_pitch.specs.declared.pitch.Pitch.{Pitch};
ghost use Rattle.fux_pitch.specs.Names.{name_of};
ghost use Rattle.text_lines.specs.Numbers.{number_of};
ghost use Rattle.fux_pitch.specs.Modes.{mode_name};
ghost use Rattle.fux_text.specs.Names.{mode_named, pitch_named};
ghost use Rattle.fux_text.specs.ReadBack.{FaultsAreRead, NoteTextReadsBack, NoteTextsAreOfOne, NoteTextsAreRead, NoteTextsHaveNoFault, NoteTextsHaveOneFault, NoteTextsOrFaults, SetsReadBack, SingFaultsAreRead, SingLinesAreRead, SingLinesReadBack};
ghost use Rattle.fux_text.specs.Relaxing.{rule_named};

/// A law, and nothing to run: a word that is written is read as what it was written of.
pub fn words_read_back()
    ensures modes { (m : Mode) → mode_named (mode_name m) ≡ Some m }
    ensures pitches { (p : Pitch) → pitch_named (name_of p) ≡ Some p }
    ensures numbers { (n : ℕ) → n ≤ 9999999 → number_of (decimal n) ≡ Some n }
    ensures rules { (rule : ℕ) → 4 ≤ rule → rule ≤ 26 → rule_named (codes "S" ++ decimal rule)
        ≡ Some rule }
    ensures sets { SetsReadBack }
{}

/// A law, and nothing to run: a text is read as an exercise just where its lines have the
/// exercise's words, so it is of one exercise at most; and a fault is told just where it is the
/// text's first one, so there is one at most, and none where the text is of an exercise. Lines of a
/// setting alone are read so, too.
pub fn texts_are_read()
    ensures texts { NoteTextsAreRead }
    ensures each { NoteTextsOrFaults }
    ensures one { NoteTextsAreOfOne }
    ensures faultless { NoteTextsHaveNoFault }
    ensures faults { FaultsAreRead }
    ensures one_fault { NoteTextsHaveOneFault }
    ensures sing_lines { SingLinesAreRead }
    ensures sing_faults { SingFaultsAreRead }
{}

/// A law, and nothing to run: the text that [`crate::write`] writes is a note text of its exercise
/// with its setting, and [`crate::sing_line`]'s lines are those of their setting.
pub fn text_reads_back()
    ensures note_text { NoteTextReadsBack }
    ensures sing_lines { SingLinesReadBack }
{}
