//! The cases of S19 and S21. After the exercise and its lines each has the columns behind which
//! something else is kept than before: that a note started late, or nothing. The last one may be
//! refused.

pub const CASES: &str = "\
dorian 4 1 0
cantus D4 E4 D4
D4:8 E4:8 D4:8
r:4 A4:8 G4:4 A4:8
=

dorian 4 1 0
cantus D4 A3 D4
D4:8 A3:8 D4:8
r:4 G4:8 F4:4 D4:8
=
8 refused

dorian 4 1 0
cantus D4 A3 D4
relax 19 3 5
D4:8 A3:8 D4:8
r:4 G4:8 F4:4 D4:8
=

dorian 4 1 0
cantus D4 G4 D4
D4:8 G4:8 D4:8
r:4 A4:8 B4:4 A4:8
=
8 refused

dorian 4 1 0
cantus D4 G4 D4
relax 21 3 5
D4:8 G4:8 D4:8
r:4 A4:8 B4:4 A4:8
=

dorian 4 1 0
cantus D4 G4 D4
relax 19 3 5
D4:8 G4:8 D4:8
r:4 A4:8 B4:4 A4:8
=
8 refused

dorian 4 1 0
cantus D4 G3 D4
D4:8 G3:8 D4:8
r:4 A4:8 G4:4 A4:8
=

dorian 4 0 1
cantus F4 E4 D4
r:4 D4:8 C4:4 D4:8
F4:8 E4:8 D4:8
=

dorian 4 0 1
cantus A4 C5 A4
r:4 D4:8 C4:4 D4:8
A4:8 C5:8 A4:8
=
8 refused

dorian 4 0 1
cantus A4 G4 A4
r:4 D4:8 C4:4 D4:8
A4:8 G4:8 A4:8
=
8 refused

dorian 4 1 0
cantus G3 C4 G3
G3:8 C4:8 G3:8
r:4 G4:8 F4:4 G4:8
B4:8 A4:8 B4:8
=

dorian 4 1 0
cantus G3 C4 G3
G3:8 C4:8 G3:8
r:4 G4:8 F4:4 G4:8
A4:8 A4:8 B4:8
=
8 refused

dorian 5 1 0
cantus D4 E4 D4
D4:8 E4:8 D4:8
F4:6 A4:4 G4:6 D4:8
=
6 late
8 refused

dorian 5 1 0
cantus D4 E4 D4
D4:8 E4:8 D4:8
F4:6 G4:1 A4:5 G4:4 D4:8
=
6 late
8 refused

dorian 5 1 0
cantus D4 E4 D4
D4:8 E4:8 D4:8
F4:4 G4:1 A4:7 G4:4 D4:8
=
5 late
8 refused

dorian 5 1 0
cantus D4 E4 D4
D4:8 E4:8 D4:8
F4:7 A4:5 G4:4 D4:8
=
7 late
8 refused

dorian 5 1 0
cantus D4 E4 D4
D4:8 E4:8 D4:8
F4:2 G4:2 A4:8 G4:4 D4:8
=

dorian 5 1 0
cantus D4 A3 D4
D4:8 A3:8 D4:8
F4:4 G4:8 F4:4 D4:8
=
8 refused

dorian 5 1 0
cantus D4 E4 D4
D4:8 E4:8 D4:8
A4:6 F4:2 B4:4 G4:2 A4:1 F4:1 D4:8
=
6 late
8 -
14 late
16 -

dorian 5 1 0
cantus D4 E4 D4
D4:8 E4:8 D4:8
F4:6 G4:12 F4:6
=
6 late
8 -

dorian 5 1 0
cantus D4 E4 D4
relax 19 3 5
D4:8 E4:8 D4:8
F4:6 A4:4 G4:6 D4:8
=

dorian 3 1 0
cantus D4 E4 D4
D4:8 E4:8 D4:8
A4:2 G4:2 F4:2 A4:4 G4:6 D4:8
=
";
