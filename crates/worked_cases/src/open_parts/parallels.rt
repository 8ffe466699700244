//! The cases of S18. After the exercise and its lines each has the columns behind which other
//! pitches are kept than before, for each voice. The last one may be refused.

pub const CASES: &str = "\
dorian 2 1 0
cantus D4 E4 D4
D4:8 E4:8 D4:8
A4:4 G4:4 B4:8 D5:8
=
0 D4 A4 - -
8 refused

dorian 2 1 0
cantus D4 E4 D4
D4:8 E4:8 D4:8
A4:4 F4:4 B4:8 D5:8
=
0 D4 A4 - -
8 refused

dorian 2 1 0
cantus D4 E4 D4
D4:8 E4:8 D4:8
A4:4 E4:4 B4:8 D5:8
=
0 D4 A4 - -
4 - - - -
8 E4 B4 - -
16 D4 D5 - -

dorian 2 1 0
cantus D4 E4 D4
D4:8 E4:8 D4:8
A4:4 B4:12 D5:8
=
0 D4 A4 - -
8 refused

dorian 2 1 0
cantus D4 E4 D4
D4:8 E4:8 D4:8
r:4 A4:4 B4:8 D5:8
=
8 E4 B4 - -
16 D4 D5 - -

dorian 2 1 0
cantus D4 E4 D4
D4:8 E4:8 D4:8
F4:4 A4:4 B4:4 C5:4 A4:8
=
8 E4 B4 - -
16 refused

dorian 2 1 0
cantus D4 D4 D4
D4:8 D4:8 D4:8
A4:4 G4:4 A4:8 D5:8
=
0 D4 A4 - -
16 D4 D5 - -

dorian 3 1 0
cantus D4 E4 D4
D4:8 E4:8 D4:8
A4:2 G4:2 F4:2 G4:2 B4:8 D5:8
=
0 D4 A4 - -
8 refused

dorian 3 1 0
cantus D4 E4 D4
D4:8 E4:8 D4:8
A4:2 G4:2 F4:2 E4:2 B4:8 D5:8
=
0 D4 A4 - -
6 - - - -
8 E4 B4 - -
16 D4 D5 - -

dorian 3 1 0
cantus D4 E4 D4
D4:8 E4:8 D4:8
A4:2 D5:2 B4:2 A4:2 B4:8 D5:8
=
0 D4 A4 - -
2 - - - -
8 E4 B4 - -
16 D4 D5 - -

dorian 5 0 1
cantus A4 B4 D5
D4:2 E4:4 F4:2 E4:8 D4:8
A4:8 B4:8 D5:8
=
0 D4 A4 - -
8 refused

dorian 2 1 0
cantus D4 E4 D4
D4:8 E4:8 D4:8
A4:4 G4:4 C5:8 D5:8
E5:8 G5:8 A5:8
=
0 D4 A4 E5 -
8 refused

dorian 2 1 0
cantus D4 E4 D4
D4:8 E4:8 D4:8
F4:4 G4:4 G4:8 F4:8
C5:8 B4:8 A4:8
=
0 - F4 C5 -
8 - - - -

dorian 2 2 0
cantus D4 E4 D4
D4:8 E4:8 D4:8
A4:8 B4:8 A4:8
F5:4 E5:4 G5:8 F5:8
=

dorian 4 1 0
cantus D4 E4 D4
D4:8 E4:8 D4:8
A4:4 G4:4 B4:8 D5:8
=

dorian 1 1 0
cantus D4 E4 D4
D4:8 E4:8 D4:8
A4:8 B4:8 D5:8
=

dorian 2 1 0
cantus D4 E4 D4
relax 18 3 5
D4:8 E4:8 D4:8
A4:4 G4:4 B4:8 D5:8
=
";
