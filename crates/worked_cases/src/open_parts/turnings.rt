//! The cases of S8. After the exercise and its lines each has the columns behind which something
//! else is kept than before: the newest note, the way to it and the latest turning note. The last
//! one may be refused.

pub const CASES: &str = "\
dorian 2 1 0
cantus D4 D4 D4
D4:8 D4:8 D4:8
G4:4 F4:4 A4:4 B4:4 A4:8
=
0 G4 level -
4 F4 falls -
8 A4 rises F4
12 B4 rises F4
16 refused

dorian 2 1 0
cantus D4 D4 D4
D4:8 D4:8 D4:8
G4:4 F4:4 A4:4 C5:4 A4:8
=
0 G4 level -
4 F4 falls -
8 A4 rises F4
12 C5 level -
16 A4 level -

mixolydian 2 1 0
cantus G4 G4 G4
G4:8 G4:8 G4:8
G4:4 F4:4 A4:4 C5:4 A4:8
=
0 G4 level -
4 F4 falls -
8 A4 rises F4
12 C5 rises -
16 A4 falls C5

dorian 3 1 0
cantus D4 D4 D4
D4:8 D4:8 D4:8
A4:2 B4:2 A4:2 G4:2 F4:2 G4:6 F4:8
=
0 A4 level -
2 B4 rises -
4 A4 falls B4
6 G4 falls B4
8 F4 falls B4
10 refused

dorian 3 1 0
cantus D4 D4 D4
D4:8 D4:8 D4:8
A4:2 B4:2 A4:2 G4:2 E4:2 F4:6 D4:8
=
0 A4 level -
2 B4 rises -
4 A4 falls B4
6 G4 falls B4
8 E4 falls -
10 F4 rises E4
16 D4 falls F4

dorian 2 1 0
cantus D4 D4 D4
D4:8 D4:8 D4:8
G4:4 F4:4 B5:4 A5:4 G5:8
=
0 G4 level -
4 F4 falls -
8 B5 rises -
12 A5 falls B5
16 G5 falls B5

dorian 1 1 0
cantus D4 D4 D4 D4
D4:8 D4:8 D4:8 D4:8
G4:8 F4:8 F4:8 A4:8
=
0 G4 level -
8 F4 falls -
16 F4 level -
24 A4 level -

dorian 4 1 0
cantus D4 D4 D4
D4:8 D4:8 D4:8
r:4 G4:8 F4:4 A4:8
=
4 G4 level -
12 F4 falls -
16 A4 rises F4

dorian 3 0 1
cantus D5 D5 D5
F4:2 E4:2 G4:2 A4:2 Bb4:8 A4:8
D5:8 D5:8 D5:8
=
0 F4 level -
2 E4 falls -
4 G4 rises E4
6 A4 rises E4
8 Bb4 rises E4
16 refused

dorian 2 1 0
cantus D4 D4 D4
D4:8 D4:8 D4:8
A4:4 G4:4 B4:4 C#5:4 B4:8
=
0 A4 level -
4 G4 falls -
8 B4 rises G4
12 C#5 rises G4
16 refused

ionian 2 1 0
cantus C4 C4 C4
C4:8 C4:8 C4:8
A4:4 G4:4 B4:4 C5:4 B4:8
=
0 A4 level -
4 G4 level -
8 B4 rises -
12 C5 level -
16 B4 falls -

dorian 2 1 0
cantus D4 D4 D4
range 1 C4 C5
D4:8 D4:8 D4:8
D4:4 F4:4 E4:4 F4:4 D4:8
=
0 D4 level -
4 F4 level -
8 E4 falls -
12 F4 rises E4
16 D4 level -

dorian 2 1 0
cantus D4 D4 D4 D4 D4 D4
D4:8 D4:8 D4:8 D4:8 D4:8 D4:8
A4:4 G4:4 B4:4 A4:4 G4:8 A4:8 B4:8 G4:8
=
0 A4 level -
4 G4 level -
8 B4 rises -
12 A4 falls B4
16 G4 falls B4
24 A4 rises G4
32 B4 rises G4
40 G4 falls B4

dorian 2 1 0
cantus D4 D4 D4
relax 8 2 5
D4:8 D4:8 D4:8
G4:4 F4:4 A4:4 B4:4 A4:8
=
";
