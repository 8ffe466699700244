//! Cases of the runs of thirds and sixths. After the exercise and its lines each case has the
//! columns behind which other runs are kept than before, with all that are kept, and those that
//! pay.

pub const CASES: &str = "\
dorian 1 1 0
cantus D4 E4 F4 E4 E4 D4
D4:8 E4:8 F4:8 E4:8 E4:8 D4:8
F4:8 G4:8 A4:8 G4:8 G4:8 D5:8
=
0 01 thirds 1
8 01 thirds 2
16 01 thirds 3
24 01 thirds 3 pays 1
32 01 thirds 3 pays 1
40

dorian 1 1 0
cantus D4 E4 D4 E4 D4
D4:8 E4:8 D4:8 E4:8 D4:8
B4:8 C5:8 B4:8 G4:8 D5:8
=
0 01 sixths 1
8 01 sixths 2
16 01 sixths 3
24

dorian 1 1 0
cantus D4 D4 E4 F4 D4
D4:8 D4:8 E4:8 F4:8 D4:8
A4:8 F4:8 G4:8 A4:8 F4:8
=
8 01 thirds 1
16 01 thirds 2
24 01 thirds 3
32 pays 1

dorian 1 1 0
cantus D4 E4 E4 F4 D4
D4:8 E4:8 E4:8 F4:8 D4:8
A4:8 B4:8 G4:8 A4:8 F4:8
=

dorian 1 1 0
cantus D4 E4 D4 D4 E4 D4 E4 D4
D4:8 E4:8 D4:8 D4:8 E4:8 D4:8 E4:8 D4:8
F4:8 G4:8 F4:8 A4:8 G4:8 F4:8 G4:8 F4:8
=
0 01 thirds 1
8 01 thirds 2
16 01 thirds 3
24
32 01 thirds 1
40 01 thirds 2
48 01 thirds 3
56 pays 1

dorian 1 1 0
cantus D4 E4 F4 D4
D4:8 E4:8 F4:8 D4:8
F4:8 G5:8 A4:8 F5:8
=
0 01 thirds 1
8 01 thirds 2
16 01 thirds 3
24 pays 1

dorian 1 1 0
cantus D4 E4 F4 D4
D4:8 E4:8 F4:8 D4:8
B3:8 C4:8 D4:8 B3:8
=
0 01 thirds 1
8 01 thirds 2
16 01 thirds 3
24 pays 1

dorian 2 1 0
cantus D4 E4 D4 E4 D4
D4:8 E4:8 D4:8 E4:8 D4:8
r:4 F4:4 B4:4 G4:4 A4:4 F4:4 B4:4 G4:4 A4:8
=

dorian 4 1 0
cantus D4 E4 F4 E4 D4
D4:8 E4:8 F4:8 E4:8 D4:8
r:4 G4:8 A4:8 G4:8 F4:12
=
8 01 thirds 1
16 01 thirds 2
24 01 thirds 3
32 pays 1

dorian 1 2 0
cantus D4 E4 F4 D4
D4:8 E4:8 F4:8 D4:8
F4:8 G4:8 A4:8 F4:8
B4:8 C5:8 D5:8 B4:8
=
0 01 thirds 1 02 sixths 1
8 01 thirds 2 02 sixths 2
16 01 thirds 3 02 sixths 3
24 pays 2

dorian 1 3 0
cantus D3 E3 D3 E3
D3:8 E3:8 D3:8 E3:8
A3:8 B3:8 A3:8 B3:8
F4:8 G4:8 F4:8 G4:8
A4:8 B4:8 A4:8 B4:8
=
0 02 thirds 1 12 sixths 1 23 thirds 1
8 02 thirds 2 12 sixths 2 23 thirds 2
16 02 thirds 3 12 sixths 3 23 thirds 3
24 pays 3
";
