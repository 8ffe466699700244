//! Cases of pruned columns and of judged settings, in the form that the builder reads:
//! behind a line of comment, and what stands comes behind a line `=`.

/// Whole bars before a column of four voices: how many of the lowest voices make it dead by their
/// moves, and whether its sound alone does; or how many cost the limit.
pub const COLUMNS: &str = "\
;
dorian 1 1 0
cantus D3 E3 D3
D3:1
A3:1
D4:1
A4:1
=
broken within None, always dead false

; voice 1 starts above voice 2
dorian 1 1 0
cantus D3 E3 D3
D3:1
D4:1
A3:1
A4:1
=
broken within None, always dead true

;
dorian 1 1 0
cantus D3 E3 D3
D3:1
D4:1
A3:1
A4:1
relax 10 0 5
=
broken within None, always dead false

; seconds and a ninth
dorian 1 1 0
cantus D3 E3 D3
D3:1
E3:1
A3:1
D4:1
=
broken within None, always dead true

;
dorian 1 1 0
cantus D3 E3 D3
D3:1
A3:1
D4:1
E4:1
=
broken within None, always dead true

; a fourth above the lowest voice that sounds
dorian 1 1 3
cantus A4 B4 A4
r:1
A3:1
D4:1
A4:1
=
broken within None, always dead true

; parallel fifths of voices 0 and 1
dorian 1 1 0
cantus D3 E3 D3
D3:8 E3:1
A3:8 B3:1
D4:8 E4:1
A4:8 B4:1
=
broken within Some(2), always dead false

; a unison, and parallel fifths of the outer voices
dorian 1 1 0
cantus D3 E3 D3
D3:8 E3:1
A3:8 G3:1
D4:8 G3:1
A4:8 B4:1
=
broken within Some(4), always dead true

; a seventh upward in voice 1
dorian 1 1 0
cantus D3 E3 D3
D3:8 E3:1
A3:8 G4:1
D4:8 B4:1
A4:8 E5:1
=
broken within Some(2), always dead false

; and in voice 2
dorian 1 1 0
cantus D3 E3 D3
D3:8 E3:1
A3:8 C4:1
D4:8 C5:1
A4:8 E5:1
=
broken within Some(3), always dead false

; a major sixth upward in the lowest voice
dorian 1 1 3
cantus A4 B4 A4
D3:8 B3:1
A3:8 D4:1
D4:8 G4:1
A4:8 B4:1
=
broken within Some(1), always dead false

; an end that isn't on the final
dorian 1 1 3
cantus A4 B4 A4
D3:8 E3:8 F3:1
A3:8 G3:8 A3:1
D4:8 E4:8 C4:1
A4:8 B4:8 A4:1
=
broken within None, always dead true

; one with a sixth, and parallel octaves of voices 0 and 2
dorian 1 1 0
cantus D3 E3 D3
D3:8 E3:8 D3:1
A3:8 G3:8 B3:1
D4:8 E4:8 D4:1
A4:8 B4:8 F4:1
=
broken within Some(3), always dead true

; an end without a cadence, which is relaxed
dorian 1 1 0
cantus D3 E3 D3
D3:8 E3:8 D3:1
A3:8 G3:8 A3:1
D4:8 E4:8 A4:1
A4:8 B4:8 D5:1
relax 22 0 5
=
broken within None, always dead false

; the cantus is free; a step, a fourth for 2 and a third for 1; three pairs of voices that rise for 2 each
dorian 1 1 0
cantus D3 E3 D3
D3:8 E3:8 D3:1
A3:8 G3:8 A3:1
D4:8 E4:8 A4:1
A4:8 B4:8 D5:1
=
limit 0, costly within Some(1)

;
dorian 1 1 0
cantus D3 E3 D3
D3:8 E3:8 D3:1
A3:8 G3:8 A3:1
D4:8 E4:8 A4:1
A4:8 B4:8 D5:1
=
limit 2, costly within Some(3)

;
dorian 1 1 0
cantus D3 E3 D3
D3:8 E3:8 D3:1
A3:8 G3:8 A3:1
D4:8 E4:8 A4:1
A4:8 B4:8 D5:1
=
limit 3, costly within Some(4)

;
dorian 1 1 0
cantus D3 E3 D3
D3:8 E3:8 D3:1
A3:8 G3:8 A3:1
D4:8 E4:8 A4:1
A4:8 B4:8 D5:1
=
limit 9, costly within Some(4)

;
dorian 1 1 0
cantus D3 E3 D3
D3:8 E3:8 D3:1
A3:8 G3:8 A3:1
D4:8 E4:8 A4:1
A4:8 B4:8 D5:1
=
limit 10, costly within None

;
dorian 1 1 0
cantus D3 E3 D3
D3:8 E3:8 D3:1
A3:8 G3:8 A3:1
D4:8 E4:8 A4:1
A4:8 B4:8 D5:1
=
limit none, costly within None

; a third for 1, then a seventh for 5
dorian 1 1 0
cantus D3 E3 D3
D3:8 E3:1
A3:8 C4:1
D4:8 C5:1
A4:8 E5:1
=
limit 1, costly within Some(2)

;
dorian 1 1 0
cantus D3 E3 D3
D3:8 E3:1
A3:8 C4:1
D4:8 C5:1
A4:8 E5:1
=
limit 2, costly within Some(3)

; after the leap to it, a fourth on in voice 1 for 2 and 3, and a fifth on in voice 2 for as much
dorian 1 1 0
cantus D3 E3 D3
D3:8 E3:8 D3:1
A3:8 E4:8 A4:1
D4:8 G4:8 D5:1
A4:8 B4:8 D5:1
=
limit 5, costly within Some(2)

;
dorian 1 1 0
cantus D3 E3 D3
D3:8 E3:8 D3:1
A3:8 E4:8 A4:1
D4:8 G4:8 D5:1
A4:8 B4:8 D5:1
=
limit 6, costly within Some(3)

; a fifth in the cantus is free, a third in voice 1 is not
dorian 1 1 0
cantus D3 A3 D3
D3:8 A3:1
A3:8 C4:1
D4:8 E4:1
A4:8 A4:1
=
limit 1, costly within Some(2)";

/// Settings and what is paid of them by the default sheet.
pub const JUDGED: &str = "\
;
dorian 1 1 0
cantus D4 F4 E4 D4 G4 F4 A4 G4 F4 E4 D4
D4:8 F4:8 E4:8 D4:8 G4:8 F4:8 A4:8 G4:8 F4:8 E4:8 D4:8
A4:8 A4:8 G4:8 A4:8 B4:8 C5:8 C5:8 B4:8 D5:8 C#5:8 D5:8
=
21

; each D5 lies far from the middle of the range
dorian 1 1 0
cantus D4 E4 D4
D4:8 E4:8 D4:8
D5:8 C5:8 D5:8
=
2

;
dorian 1 1 0
cantus D4 E4 D4
D4:8 E4:8 D4:8
D5:8 C#5:8 D5:8
=
2

; a leap of a third, one direct motion, and a D5
dorian 1 1 0
cantus D4 E4 D4
D4:8 E4:8 D4:8
A4:8 C#5:8 D5:8
=
4";
