//! Cases of the rules and tolls of melody, worked out by hand: lines of one note a column, which four
//! voices sing, or one of them alone, and what stands at their last note. The cantus breaks nothing,
//! and S5 stands for the voice of the second species alone.

pub const CASES: &str = "\
last S4
dorian 2 1 0
cantus D4 E4 D4
F4 B4:1
F4 B4:1
F4 B4:1
F4 B4:1
=
S4 1 2
S4 1 4
S4 1 8

last S4
dorian 2 1 0
cantus D4 E4 D4
F4 B4:1
r:2
r:2
r:2
=

last S4
dorian 2 1 0
cantus D4 E4 D4
r:2
r:2
r:2
F4 B4:1
=
S4 1 8

last S4
dorian 2 1 0
cantus D4 E4 D4
B3 F4:1
B3 F4:1
B3 F4:1
B3 F4:1
=
S4 1 2
S4 1 4
S4 1 8

last S4
dorian 2 1 0
cantus D4 E4 D4
C5 E4:1
C5 E4:1
C5 E4:1
C5 E4:1
=
S4 1 2
S4 1 4
S4 1 8

last S4
dorian 2 1 0
cantus D4 E4 D4
C4 A4:1
C4 A4:1
C4 A4:1
C4 A4:1
=
S4 1 2
S4 1 4
S4 1 8

last S4
dorian 2 1 0
cantus D4 E4 D4
C4 B4:1
C4 B4:1
C4 B4:1
C4 B4:1
=
S4 1 2
S4 1 4
S4 1 8

last S4
dorian 2 1 0
cantus D4 E4 D4
C4 D5:1
C4 D5:1
C4 D5:1
C4 D5:1
=
S4 1 2
S4 1 4
S4 1 8

last S4
dorian 2 1 0
cantus D4 E4 D4
F4 F#4:1
F4 F#4:1
F4 F#4:1
F4 F#4:1
=
S4 1 2
S4 1 4
S4 1 8

last S4
dorian 2 1 0
cantus D4 E4 D4
B#3 C4:1
B#3 C4:1
B#3 C4:1
B#3 C4:1
=
S4 1 2
S4 1 4
S4 1 8

last S4
dorian 2 1 0
cantus D4 E4 D4
E#4 Fb4:1
E#4 Fb4:1
E#4 Fb4:1
E#4 Fb4:1
=
S4 1 2
S4 1 4
S4 1 8

last S5
dorian 2 1 0
cantus D4 E4 D4
D4 D4:1
D4 D4:1
D4 D4:1
D4 D4:1
=
S5 1 2

last S5
dorian 2 1 0
cantus D4 E4 D4
D4 D4:1
r:2
r:2
r:2
=

last S5
dorian 2 1 0
cantus D4 E4 D4
r:2
r:2
r:2
D4 D4:1
=

last S26
dorian 2 1 0
cantus D4 E4 D4
C#4 E4:1
C#4 E4:1
C#4 E4:1
C#4 E4:1
=
S26 1 2
S26 1 4
S26 1 8

last S26
dorian 2 1 0
cantus D4 E4 D4
C#4 E4:1
r:2
r:2
r:2
=

last S26
dorian 2 1 0
cantus D4 E4 D4
r:2
r:2
r:2
C#4 E4:1
=
S26 1 8

last S26
dorian 2 1 0
cantus D4 E4 D4
C#4 C#4:1
C#4 C#4:1
C#4 C#4:1
C#4 C#4:1
=
S26 1 2
S26 1 4
S26 1 8

last S26
dorian 2 1 0
cantus D4 E4 D4
C#4 B3:1
C#4 B3:1
C#4 B3:1
C#4 B3:1
=
S26 1 2
S26 1 4
S26 1 8

last S6
dorian 2 1 0
cantus D4 E4 D4
C4 F4 B4:1
C4 F4 B4:1
C4 F4 B4:1
C4 F4 B4:1
=
S6 2 2
S6 2 4
S6 2 8

last S6
dorian 2 1 0
cantus D4 E4 D4
C4 F4 B4:1
r:3
r:3
r:3
=

last S6
dorian 2 1 0
cantus D4 E4 D4
r:3
r:3
r:3
C4 F4 B4:1
=
S6 2 8

last S6
dorian 2 1 0
cantus D4 E4 D4
D4 G4 C5:1
D4 G4 C5:1
D4 G4 C5:1
D4 G4 C5:1
=
S6 2 2
S6 2 4
S6 2 8

last S6
dorian 2 1 0
cantus D4 E4 D4
C4 G4 D5:1
C4 G4 D5:1
C4 G4 D5:1
C4 G4 D5:1
=
S6 2 2
S6 2 4
S6 2 8

last S6
dorian 2 1 0
cantus D4 E4 D4
C4 G4 E5:1
C4 G4 E5:1
C4 G4 E5:1
C4 G4 E5:1
=
S6 2 2
S6 2 4
S6 2 8

last S6
dorian 2 1 0
cantus D4 E4 D4
F4 D4 B3:1
F4 D4 B3:1
F4 D4 B3:1
F4 D4 B3:1
=
S6 2 2
S6 2 4
S6 2 8

last S7
dorian 2 1 0
cantus D4 E4 D4
E4 C5 D5:1
E4 C5 D5:1
E4 C5 D5:1
E4 C5 D5:1
=
S7 2 2
S7 2 4
S7 2 8

last S7
dorian 2 1 0
cantus D4 E4 D4
E4 C5 D5:1
r:3
r:3
r:3
=

last S7
dorian 2 1 0
cantus D4 E4 D4
r:3
r:3
r:3
E4 C5 D5:1
=
S7 2 8

last S7
dorian 2 1 0
cantus D4 E4 D4
E4 C5 C5:1
E4 C5 C5:1
E4 C5 C5:1
E4 C5 C5:1
=
S7 2 2
S7 2 4
S7 2 8

last S7
dorian 2 1 0
cantus D4 E4 D4
E4 C5 B#4:1
E4 C5 B#4:1
E4 C5 B#4:1
E4 C5 B#4:1
=
S7 2 2
S7 2 4
S7 2 8

last S7
dorian 2 1 0
cantus D4 E4 D4
C5 C4 B3:1
C5 C4 B3:1
C5 C4 B3:1
C5 C4 B3:1
=
S7 2 2
S7 2 4
S7 2 8

last S8
dorian 2 1 0
cantus D4 E4 D4
A4 F4 G4 B4 A4:1
A4 F4 G4 B4 A4:1
A4 F4 G4 B4 A4:1
A4 F4 G4 B4 A4:1
=
S8 4 2
S8 4 4
S8 4 8

last S8
dorian 2 1 0
cantus D4 E4 D4
A4 F4 G4 B4 A4:1
r:5
r:5
r:5
=

last S8
dorian 2 1 0
cantus D4 E4 D4
r:5
r:5
r:5
A4 F4 G4 B4 A4:1
=
S8 4 8

last S8
dorian 2 1 0
cantus D4 E4 D4
G4 B4 F4 G4:1
G4 B4 F4 G4:1
G4 B4 F4 G4:1
G4 B4 F4 G4:1
=
S8 3 2
S8 3 4
S8 3 8

last S9
dorian 2 1 0
cantus D4 E4 D4
C4 F5:1
C4 F5:1
C4 F5:1
C4 F5:1
=
S9 1 2
S9 1 4
S9 1 8

last S9
dorian 2 1 0
cantus D4 E4 D4
C4 F5:1
r:2
r:2
r:2
=

last S9
dorian 2 1 0
cantus D4 E4 D4
r:2
r:2
r:2
C4 F5:1
=
S9 1 8

last S9
dorian 2 1 0
cantus D4 E4 D4
F5 C4:1
F5 C4:1
F5 C4:1
F5 C4:1
=
S9 1 2
S9 1 4
S9 1 8

last S9
dorian 2 1 0
cantus D4 E4 D4
E5 C4 B3:1
E5 C4 B3:1
E5 C4 B3:1
E5 C4 B3:1
=
S9 2 2
S9 2 4
S9 2 8

last S9
dorian 2 1 0
cantus D4 E4 D4
C4 D5 E5 F5:1
C4 D5 E5 F5:1
C4 D5 E5 F5:1
C4 D5 E5 F5:1
=
S9 3 2
S9 3 4
S9 3 8

last S9
dorian 2 1 0
cantus D4 E4 D4
D4 F5 B3:1
D4 F5 B3:1
D4 F5 B3:1
D4 F5 B3:1
=
S9 2 2
S9 2 4
S9 2 8

last S9
dorian 2 1 0
cantus D4 E4 D4
D5 F4 B5:1
D5 F4 B5:1
D5 F4 B5:1
D5 F4 B5:1
=
S9 2 2
S9 2 4
S9 2 8

last Q7
dorian 2 1 0
cantus D4 E4 D4
D4 D4:1
D4 D4:1
D4 D4:1
D4 D4:1
=
Q7 1 3

last Q7
dorian 2 1 0
cantus D4 E4 D4
D4 D4:1
r:2
r:2
r:2
=

last Q7
dorian 2 1 0
cantus D4 E4 D4
r:2
r:2
r:2
D4 D4:1
=
Q7 1 1

last Q8
dorian 2 1 0
cantus D4 E4 D4
D4 F4:1
D4 F4:1
D4 F4:1
D4 F4:1
=
Q8 1 3

last Q8
dorian 2 1 0
cantus D4 E4 D4
D4 F4:1
r:2
r:2
r:2
=

last Q8
dorian 2 1 0
cantus D4 E4 D4
r:2
r:2
r:2
D4 F4:1
=
Q8 1 1

last Q8
dorian 2 1 0
cantus D4 E4 D4
E4 C4:1
E4 C4:1
E4 C4:1
E4 C4:1
=
Q8 1 3

last Q9
dorian 2 1 0
cantus D4 E4 D4
D4 G4:1
D4 G4:1
D4 G4:1
D4 G4:1
=
Q9 1 3

last Q9
dorian 2 1 0
cantus D4 E4 D4
D4 G4:1
r:2
r:2
r:2
=

last Q9
dorian 2 1 0
cantus D4 E4 D4
r:2
r:2
r:2
D4 G4:1
=
Q9 1 1

last Q9
dorian 2 1 0
cantus D4 E4 D4
A4 D4:1
A4 D4:1
A4 D4:1
A4 D4:1
=
Q9 1 3

last Q9
dorian 2 1 0
cantus D4 E4 D4
F4 B4:1
F4 B4:1
F4 B4:1
F4 B4:1
=
Q9 1 3

last Q10
dorian 2 1 0
cantus D4 E4 D4
D4 B4:1
D4 B4:1
D4 B4:1
D4 B4:1
=
Q10 1 3

last Q10
dorian 2 1 0
cantus D4 E4 D4
D4 B4:1
r:2
r:2
r:2
=

last Q10
dorian 2 1 0
cantus D4 E4 D4
r:2
r:2
r:2
D4 B4:1
=
Q10 1 1

last Q10
dorian 2 1 0
cantus D4 E4 D4
C5 C4:1
C5 C4:1
C5 C4:1
C5 C4:1
=
Q10 1 3

last Q10
dorian 2 1 0
cantus D4 E4 D4
C4 D5:1
C4 D5:1
C4 D5:1
C4 D5:1
=
Q10 1 3

last Q13
dorian 2 1 0
cantus D4 E4 D4
D4 G4 A4:1
D4 G4 A4:1
D4 G4 A4:1
D4 G4 A4:1
=
Q13 2 3

last Q13
dorian 2 1 0
cantus D4 E4 D4
D4 G4 A4:1
r:3
r:3
r:3
=

last Q13
dorian 2 1 0
cantus D4 E4 D4
r:3
r:3
r:3
D4 G4 A4:1
=
Q13 2 1

last Q13
dorian 2 1 0
cantus D4 E4 D4
D4 G4 G4:1
D4 G4 G4:1
D4 G4 G4:1
D4 G4 G4:1
=
Q13 2 3

last Q13
dorian 2 1 0
cantus D4 E4 D4
D4 G4 E4:1
D4 G4 E4:1
D4 G4 E4:1
D4 G4 E4:1
=
Q13 2 3

last Q13
dorian 2 1 0
cantus D4 E4 D4
G4 D4 C4:1
G4 D4 C4:1
G4 D4 C4:1
G4 D4 C4:1
=
Q13 2 3

last Q13
dorian 2 1 0
cantus D4 E4 D4
E4 C5 B#4:1
E4 C5 B#4:1
E4 C5 B#4:1
E4 C5 B#4:1
=
Q13 2 3

last S4
dorian 2 1 0
cantus D4 E4 D4
B4:1
B4:1
B4:1
B4:1
=

last S4
dorian 2 1 0
cantus D4 E4 D4
D4 D4:1
D4 D4:1
D4 D4:1
D4 D4:1
=

last S4
dorian 2 1 0
cantus D4 E4 D4
E4 F4:1
E4 F4:1
E4 F4:1
E4 F4:1
=

last S4
dorian 2 1 0
cantus D4 E4 D4
E4 D4:1
E4 D4:1
E4 D4:1
E4 D4:1
=

last S4
dorian 2 1 0
cantus D4 E4 D4
D4 F4:1
D4 F4:1
D4 F4:1
D4 F4:1
=

last S4
dorian 2 1 0
cantus D4 E4 D4
E4 C4:1
E4 C4:1
E4 C4:1
E4 C4:1
=

last S4
dorian 2 1 0
cantus D4 E4 D4
G4 D4:1
G4 D4:1
G4 D4:1
G4 D4:1
=

last S4
dorian 2 1 0
cantus D4 E4 D4
F4 C4:1
F4 C4:1
F4 C4:1
F4 C4:1
=

last S4
dorian 2 1 0
cantus D4 E4 D4
E4 C5:1
E4 C5:1
E4 C5:1
E4 C5:1
=

last S4
dorian 2 1 0
cantus D4 E4 D4
C4 C5:1
C4 C5:1
C4 C5:1
C4 C5:1
=

last S4
dorian 2 1 0
cantus D4 E4 D4
C5 C4:1
C5 C4:1
C5 C4:1
C5 C4:1
=

last S5
dorian 2 1 0
cantus D4 E4 D4
D4:1
D4:1
D4:1
D4:1
=

last S5
dorian 2 1 0
cantus D4 E4 D4
D4 E4:1
D4 E4:1
D4 E4:1
D4 E4:1
=

last S5
dorian 2 1 0
cantus D4 E4 D4
F4 F#4:1
F4 F#4:1
F4 F#4:1
F4 F#4:1
=

last S5
dorian 2 1 0
cantus D4 E4 D4
B#3 C4:1
B#3 C4:1
B#3 C4:1
B#3 C4:1
=

last S26
dorian 2 1 0
cantus D4 E4 D4
C#4:1
C#4:1
C#4:1
C#4:1
=

last S26
dorian 2 1 0
cantus D4 E4 D4
C#4 D4:1
C#4 D4:1
C#4 D4:1
C#4 D4:1
=

last S26
dorian 2 1 0
cantus D4 E4 D4
C#4 Db4:1
C#4 Db4:1
C#4 Db4:1
C#4 Db4:1
=

last S26
dorian 2 1 0
cantus D4 E4 D4
C4 E4:1
C4 E4:1
C4 E4:1
C4 E4:1
=

last S26
dorian 2 1 0
cantus D4 E4 D4
Db4 D4:1
Db4 D4:1
Db4 D4:1
Db4 D4:1
=

last S6
dorian 2 1 0
cantus D4 E4 D4
C4 F4:1
C4 F4:1
C4 F4:1
C4 F4:1
=

last S6
dorian 2 1 0
cantus D4 E4 D4
C4 F4 A4:1
C4 F4 A4:1
C4 F4 A4:1
C4 F4 A4:1
=

last S6
dorian 2 1 0
cantus D4 E4 D4
C4 G4 C5:1
C4 G4 C5:1
C4 G4 C5:1
C4 G4 C5:1
=

last S6
dorian 2 1 0
cantus D4 E4 D4
G4 E4 C4:1
G4 E4 C4:1
G4 E4 C4:1
G4 E4 C4:1
=

last S6
dorian 2 1 0
cantus D4 E4 D4
C4 A4 B4:1
C4 A4 B4:1
C4 A4 B4:1
C4 A4 B4:1
=

last S6
dorian 2 1 0
cantus D4 E4 D4
E4 F4 B4:1
E4 F4 B4:1
E4 F4 B4:1
E4 F4 B4:1
=

last S6
dorian 2 1 0
cantus D4 E4 D4
C5 D4 B4:1
C5 D4 B4:1
C5 D4 B4:1
C5 D4 B4:1
=

last S7
dorian 2 1 0
cantus D4 E4 D4
E4 C5:1
E4 C5:1
E4 C5:1
E4 C5:1
=

last S7
dorian 2 1 0
cantus D4 E4 D4
E4 C5 B4:1
E4 C5 B4:1
E4 C5 B4:1
E4 C5 B4:1
=

last S7
dorian 2 1 0
cantus D4 E4 D4
E4 C5 E4:1
E4 C5 E4:1
E4 C5 E4:1
E4 C5 E4:1
=

last S7
dorian 2 1 0
cantus D4 E4 D4
E4 B4 C5:1
E4 B4 C5:1
E4 B4 C5:1
E4 B4 C5:1
=

last S7
dorian 2 1 0
cantus D4 E4 D4
C5 C4 D4:1
C5 C4 D4:1
C5 C4 D4:1
C5 C4 D4:1
=

last S8
dorian 2 1 0
cantus D4 E4 D4
F4 G4 B4 A4:1
F4 G4 B4 A4:1
F4 G4 B4 A4:1
F4 G4 B4 A4:1
=

last S8
dorian 2 1 0
cantus D4 E4 D4
A4 F4 G4 B4:1
A4 F4 G4 B4:1
A4 F4 G4 B4:1
A4 F4 G4 B4:1
=

last S8
dorian 2 1 0
cantus D4 E4 D4
A4 F4 G4 B4 C5:1
A4 F4 G4 B4 C5:1
A4 F4 G4 B4 C5:1
A4 F4 G4 B4 C5:1
=

last S8
dorian 2 1 0
cantus D4 E4 D4
A4 F4 G4 C5 A4:1
A4 F4 G4 C5 A4:1
A4 F4 G4 C5 A4:1
A4 F4 G4 C5 A4:1
=

last S8
dorian 2 1 0
cantus D4 E4 D4
A4 F4 F4 B4 A4:1
A4 F4 F4 B4 A4:1
A4 F4 F4 B4 A4:1
A4 F4 F4 B4 A4:1
=

last S8
dorian 2 1 0
cantus D4 E4 D4
A4 F4 C5 G4 B4 A4:1
A4 F4 C5 G4 B4 A4:1
A4 F4 C5 G4 B4 A4:1
A4 F4 C5 G4 B4 A4:1
=

last S8
dorian 2 1 0
cantus D4 E4 D4
A4 F4 B5 A5:1
A4 F4 B5 A5:1
A4 F4 B5 A5:1
A4 F4 B5 A5:1
=

last S9
dorian 2 1 0
cantus D4 E4 D4
C4:1
C4:1
C4:1
C4:1
=

last S9
dorian 2 1 0
cantus D4 E4 D4
C4 E5:1
C4 E5:1
C4 E5:1
C4 E5:1
=

last S9
dorian 2 1 0
cantus D4 E4 D4
C4 F5 C4:1
C4 F5 C4:1
C4 F5 C4:1
C4 F5 C4:1
=

last S9
dorian 2 1 0
cantus D4 E4 D4
C4 F5 A5:1
C4 F5 A5:1
C4 F5 A5:1
C4 F5 A5:1
=

last S9
dorian 2 1 0
cantus D4 E4 D4
C#4 D5 F5:1
C#4 D5 F5:1
C#4 D5 F5:1
C#4 D5 F5:1
=

last S9
dorian 2 1 0
cantus D4 E4 D4
C4 D5 E5 D5:1
C4 D5 E5 D5:1
C4 D5 E5 D5:1
C4 D5 E5 D5:1
=

last S9
dorian 2 1 0
cantus D4 E4 D4
C5 D5 B5:1
C5 D5 B5:1
C5 D5 B5:1
C5 D5 B5:1
=

last Q7
dorian 2 1 0
cantus D4 E4 D4
D4:1
D4:1
D4:1
D4:1
=

last Q7
dorian 2 1 0
cantus D4 E4 D4
F4 F#4:1
F4 F#4:1
F4 F#4:1
F4 F#4:1
=

last Q7
dorian 2 1 0
cantus D4 E4 D4
B#3 C4:1
B#3 C4:1
B#3 C4:1
B#3 C4:1
=

last Q8
dorian 2 1 0
cantus D4 E4 D4
D4 E4:1
D4 E4:1
D4 E4:1
D4 E4:1
=

last Q8
dorian 2 1 0
cantus D4 E4 D4
D4 G4:1
D4 G4:1
D4 G4:1
D4 G4:1
=

last Q9
dorian 2 1 0
cantus D4 E4 D4
D4 F4:1
D4 F4:1
D4 F4:1
D4 F4:1
=

last Q9
dorian 2 1 0
cantus D4 E4 D4
D4 B4:1
D4 B4:1
D4 B4:1
D4 B4:1
=

last Q10
dorian 2 1 0
cantus D4 E4 D4
A4 D4:1
A4 D4:1
A4 D4:1
A4 D4:1
=

last Q13
dorian 2 1 0
cantus D4 E4 D4
D4 G4:1
D4 G4:1
D4 G4:1
D4 G4:1
=

last Q13
dorian 2 1 0
cantus D4 E4 D4
D4 G4 F4:1
D4 G4 F4:1
D4 G4 F4:1
D4 G4 F4:1
=

last Q13
dorian 2 1 0
cantus D4 E4 D4
D4 F4 G4:1
D4 F4 G4:1
D4 F4 G4:1
D4 F4 G4:1
=

last Q13
dorian 2 1 0
cantus D4 E4 D4
G4 D4 E4:1
G4 D4 E4:1
G4 D4 E4:1
G4 D4 E4:1
=

last Q13
dorian 2 1 0
cantus D4 E4 D4
D4 G4 F4 E4:1
D4 G4 F4 E4:1
D4 G4 F4 E4:1
D4 G4 F4 E4:1
=";
