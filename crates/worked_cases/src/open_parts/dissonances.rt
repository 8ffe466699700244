//! The cases. After the exercise and its lines each has the columns behind which something else is
//! open than before: the pitch that a clash within the bar was reached from, and that of a
//! ligature. The last one may be refused.

pub const CASES: &str = "\
dorian 2 1 0
cantus D4 D4 D4
D4:8 D4:8 D4:8
A4:4 G4:4 F4:4 A4:4 D5:8
=
4 A4 -
8 - -

dorian 2 1 0
cantus D4 D4 D4
D4:8 D4:8 D4:8
A4:4 G4:4 A4:8 D5:8
=
4 A4 -
8 refused

dorian 3 1 0
cantus D4 D4 D4
D4:8 D4:8 D4:8
A4:2 G4:2 A4:2 B4:2 A4:8 D5:8
=
2 A4 -
4 - -

dorian 3 1 0
cantus D4 D4 D4
D4:8 D4:8 D4:8
A4:2 G4:2 F4:2 E4:2 D4:8 D5:8
=
2 A4 -
4 - -
6 F4 -
8 - -

dorian 3 1 0
cantus D4 D4 D4
D4:8 D4:8 D4:8
A4:2 G4:2 D4:4 D4:8 D5:8
=
2 A4 -
4 refused

dorian 3 1 0
cantus D4 D4 D4
D4:8 D4:8 D4:8
D5:2 G4:2 A4:4 A4:8 D5:8
=
2 refused

dorian 2 1 0
cantus D4 D4 D4
D4:8 D4:8 D4:8
r:4 G4:4 F4:8 D4:8
=
4 refused

dorian 3 1 0
cantus D4 D4 D4
D4:8 D4:8 D4:8
D5:2 C5:2 A4:2 B4:2 A4:8 D5:8
=
2 D5 -
4 - -

dorian 2 1 0
cantus D4 D4 D4
D4:8 D4:8 D4:8
D5:4 C5:4 A4:8 D5:8
=
4 D5 -
8 refused

dorian 3 1 0
cantus D4 D4 D4
D4:8 D4:8 D4:8
D4:2 F4:2 A4:2 G4:2 E4:8 D5:8
=
6 A4 -
8 refused

dorian 2 1 0
cantus D4 D4 D4
D4:8 D4:8 D4:8
A4:8 G4:8 D5:8
=

dorian 2 0 1
cantus D4 D4 D4
D3:4 E3:4 F3:8 D3:8
D4:8 D4:8 D4:8
=
4 D3 -
8 - -

dorian 2 1 0
cantus D4 D4 D4
D4:8 D4:8 D4:8
A4:4 B4:4 C5:8 D5:8
A4:8 F4:8 D5:8
=
4 A4 -
8 - -

dorian 4 1 0
cantus D4 E4 D4
D4:8 E4:8 D4:8
r:4 A4:8 G4:4 A4:8
=
8 - A4
12 - -

dorian 4 1 0
cantus D4 E4 D4
D4:8 E4:8 D4:8
r:4 A4:8 B4:4 A4:8
=
8 - A4
12 refused

dorian 4 1 0
cantus D4 E4 D4
D4:8 E4:8 D4:8
r:4 A4:12 A4:8
=
8 - A4
12 refused

dorian 5 1 0
cantus D4 E4 D4
D4:8 E4:8 D4:8
r:4 A4:5 G4:7 A4:8
=
8 - A4
9 refused

dorian 3 1 0
cantus D4 D4 D4
relax 15 3 5
D4:8 D4:8 D4:8
A4:2 G4:2 D4:4 D4:8 D5:8
=

dorian 4 1 0
cantus D4 E4 D4
relax 20 0 0
D4:8 E4:8 D4:8
r:4 A4:8 B4:4 A4:8
=
";
