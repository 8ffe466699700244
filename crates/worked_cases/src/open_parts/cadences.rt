//! Cases of S22. After the exercise and its lines each case has the columns behind which other
//! voices may show their cadence than before, with the numbers of these voices. The last one may be
//! refused.

pub const CASES: &str = "\
dorian 1 1 0
cantus D4 E4 D4
D4:8 E4:8 D4:8
D5:8 C#5:8 D5:8
=
8 1
16

dorian 1 1 0
cantus D4 E4 D4
D4:8 E4:8 D4:8
D5:8 C5:8 D5:8
=
8 refused

dorian 1 1 0
cantus D4 E4 D4
D4:8 E4:8 D4:8
D5:8 C#5:8 A4:8
=
8 1
16 refused

dorian 1 1 0
cantus D4 E4 D4
D4:8 E4:8 D4:8
D5:8 C#5:16
=
8 1
16 refused

dorian 1 1 0
cantus D4 C#4 D4
D4:8 C#4:8 D4:8
A4:8 E4:8 D4:8
=
8 0
16

dorian 1 1 0
cantus D4 F4 E4 D4
D4:8 F4:8 E4:8 D4:8
A4:8 A4:8 C#5:8 D5:8
=
16 1
24

dorian 2 1 0
cantus D4 E4 D4
D4:8 E4:8 D4:8
A4:4 D5:4 B4:4 C#5:4 D5:8
=
8 1
16

dorian 2 1 0
cantus D4 E4 D4
D4:8 E4:8 D4:8
A4:8 C#5:8 D5:8
=
8 1
12 refused

dorian 2 1 0
cantus D4 C#4 D4
D4:8 C#4:8 D4:8
A4:8 E4:4 A4:4 D5:8
=
8 0 1
12 0
16

dorian 2 1 0
cantus D4 E4 D4
D4:8 E4:8 D4:8
A4:8 A4:4 G4:4 A4:8
D5:8 C#5:8 D5:8
=
8 1 2
12 2
16

dorian 3 1 0
cantus D4 E4 D4
D4:8 E4:8 D4:8
A4:8 G4:2 A4:2 B4:2 C#5:2 D5:8
=
8 1
16

dorian 3 1 0
cantus D4 E4 D4
D4:8 E4:8 D4:8
A4:8 G4:2 A4:2 C#5:2 B4:2 D5:8
=
8 1
14 refused

dorian 4 1 0
cantus D4 E4 D4
D4:8 E4:8 D4:8
r:4 D5:8 C#5:4 D5:8
=
8 1
16

dorian 4 1 0
cantus D4 E4 D4
D4:8 E4:8 D4:8
r:4 A4:4 D5:4 C#5:4 D5:8
=
8 refused

dorian 4 1 0
cantus D4 D4 D4
D4:8 D4:8 D4:8
r:4 C5:8 C#5:4 D5:8
=
8 refused

dorian 4 0 1
cantus D5 E5 D5
r:4 D5:8 C#5:4 D5:8
D5:8 E5:8 D5:8
=
8 0
16

dorian 5 1 0
cantus D4 E4 D4
D4:8 E4:8 D4:8
r:4 D5:6 C#5:1 B4:1 C#5:4 D5:8
=
8 1
16

dorian 5 1 0
cantus D4 E4 D4
D4:8 E4:8 D4:8
r:4 D5:8 C#5:2 B4:2 D5:8
=
8 1
14 refused

dorian 1 1 0
cantus D4 E4 D4
relax 22 3 5
D4:8 E4:8 D4:8
D5:8 C5:8 D5:8
=
";
