//! Cases of the open shapes. After the exercise and its lines each case has the columns behind
//! which other shapes are open than before, with the bits of these. The last one may be refused.

pub const CASES: &str = "\
dorian 5 1 0
cantus D4 E4 D4
D4:8 E4:8 D4:8
r:4 A4:5 G4:7 A4:8
=
0 100000000
7 0
8 111111100000000
9 refused

dorian 5 1 0
cantus D4 E4 D4
D4:8 E4:8 D4:8
A4:2 G4:2 F4:2 E4:1 D4:1 C4:2 B3:1 A3:1 B3:2 C4:2 D4:8
=
0 11111111
2 11111000
3 111000
6 110000
7 0
8 11111111
10 11111000
11 11000000
14 1000000
15 0
16 1
23 0

dorian 5 1 0
cantus D4 E4 D4
D4:8 E4:8 D4:8
A4:8 B4:4 A4:4 D5:8
=
0 11111111
2 111
4 100
6 refused

dorian 5 1 0
cantus D4 E4 D4
D4:8 E4:8 D4:8
A4:4 G4:9 F4:3 D4:8
=
0 11111111
2 111
4 11
6 1
7 0
8 111111100000000
10 11100000000
12 refused

dorian 5 1 0
cantus D4 E4 D4
D4:8 E4:8 D4:8
A4:4 G4:8 F4:4 D4:4 D4:4
=
0 11111111
2 111
4 11
6 1
7 0
8 111111100000000
10 11100000000
14 100000000
15 0
16 1
20 refused

dorian 5 1 0
cantus D4 E4 D4
D4:8 E4:8 D4:8
r:2 A4:6 B4:8 A4:8
=
0 100000000
2 refused

dorian 3 1 0
cantus D4 E4 D4
D4:8 E4:8 D4:8
A4:3 G4:5 B4:8 A4:8
=
";
