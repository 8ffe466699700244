//! Cases of the rules, tolls and gauges that are read over several columns, worked out by hand, in
//! the form of the other table.

pub const CASES: &str = "\
S15 S18 S19 S20 S21 S22 S23 S25
dorian 2 1 0
cantus D4 D4 D4 D4 D4 D4 D4
D4:8 A4:8 G4:8 F4:8 D4:8 E4:8 D4:8
D5:4 B4:4 C5:4 A4:4 D5:4 B4:4 C5:4 A4:4 B4:4 D5:4 B4:4 C#5:4 D5:8
=
S18 24 3

S15 S18 S19 S20 S21 S22 S23 S25
dorian 2 1 0
cantus D4 D4 D4 D4 D4 D4 D4
D4:8 A4:8 G4:8 F4:8 D4:8 E4:8 D4:8
D5:4 B4:4 C5:4 A4:4 D5:4 G4:4 C5:4 A4:4 B4:4 D5:4 B4:4 C#5:4 D5:8
=

S15 S18 S19 S20 S21 S22 S23 S25
dorian 3 1 0
cantus D4 D4 D4 D4
D4:8 F4:8 E4:8 D4:8
D5:2 E5:2 F5:2 G5:2 F5:2 E5:2 C5:2 D5:2 E5:2 C5:2 B4:2 C#5:2 D5:8
=

S15 S18 S19 S20 S21 S22 S23 S25
dorian 3 1 0
cantus D4 D4 D4 D4
D4:8 F4:8 E4:8 D4:8
D5:2 E5:2 F5:2 G5:2 F5:2 E5:2 C5:2 A4:2 E5:2 C5:2 B4:2 C#5:2 D5:8
=
S15 10 3

S15 S18 S19 S20 S21 S22 S23 S25
dorian 4 1 0
cantus D4 D4 D4 D4
D4:8 F4:8 E4:8 D4:8
r:4 A4:8 D5:8 C#5:4 D5:8
=

S15 S18 S19 S20 S21 S22 S23 S25
dorian 4 1 0
cantus D4 D4 D4 D4
D4:8 C4:8 E4:8 D4:8
r:4 A4:8 D5:8 C#5:4 D5:8
=
S15 12 3
S19 16 3

S15 S18 S19 S20 S21 S22 S23 S25
dorian 4 1 0
cantus D4 D4 D4 D4
D4:8 F4:8 E4:8 D4:8
r:4 A4:8 D5:8 B4:4 D5:8
=
S20 16 3
S22 24 3

S15 S18 S19 S20 S21 S22 S23 S25
dorian 5 1 0
cantus D4 D4 D4 D4 D4 D4
D4:8 F4:8 G4:8 F4:8 E4:8 D4:8
r:4 A4:8 C5:6 B4:1 A4:1 B4:2 G4:2 A4:4 D5:8 C#5:4 D5:8
=

S15 S18 S19 S20 S21 S22 S23 S25
dorian 5 1 0
cantus D4 D4 D4 D4 D4 D4
D4:8 F4:8 G4:8 F4:8 E4:8 D4:8
r:4 A4:8 C5:6 B4:1 G4:1 B4:2 G4:2 A4:4 D5:8 C#5:4 D5:8
=
S25 18 2
S25 19 2

S15 S18 S19 S20 S21 S22 S23 S25
dorian 1 3 2
cantus D4 D4 D4
D3:8 A3:8 D3:8
A3:8 C#4:8 D4:8
D4:8 E4:8 D4:8
D5:8 C#5:8 D5:8
=
S23 8 10

S15 S18 S19 S20 S21 S22 S23 S25
dorian 1 1 0
cantus D4 D4 D4
D4:8 E4:8 D4:8
D5:8 C5:8 D5:8
=
S22 16 3

S15
dorian 2 1 0
cantus D4 D4 D4
D4:24
D5:4 E5:4 F5:4 E5:4 D5:8
=

S15
dorian 2 1 0
cantus D4 D4 D4
D4:24
D5:4 E5:4 D5:4 B4:4 D5:8
=
S15 4 3

S15
dorian 3 1 0
cantus D4 D4 D4
D4:24
D5:2 E5:2 D5:2 B4:2 D5:2 B4:2 A4:2 B4:2 D5:8
=

S15
dorian 2 2 0
cantus D4 D4 D4
D3:24
A3:24
A4:4 B4:4 A4:4 D5:4 D5:8
=
S15 4 6

S19
dorian 4 1 0
cantus D4 D4 D4
D4:8 E4:8 D4:8
r:5 D5:7 C5:4 D5:8
=
S19 8 3

S19
dorian 4 1 0
cantus D4 D4 D4
D4:8 E4:8 D4:8
r:4 D5:8 C5:4 D5:8
=

S20
dorian 4 1 0
cantus D4 D4 D4
D4:8 E4:8 D4:8
r:4 D5:8 E5:4 D5:8
=
S20 8 3

S20
dorian 4 1 0
cantus D4 D4 D4
D4:8 E4:8 D4:8
r:4 D5:6 C5:6 D5:8
=
S20 8 3

S20
dorian 4 1 0
cantus D4 D4 D4
D4:8 B3:8 D4:8
r:4 F4:8 E4:4 D4:8
=
S20 8 3

S21
dorian 4 1 0
cantus D4 D4 D4
D4:8 C4:8 D4:8
r:4 D4:8 C4:4 D4:8
=
S21 8 3

S21
dorian 4 1 0
cantus D4 D4 D4
D4:8 C4:8 D4:8
r:4 D5:8 C5:4 D5:8
=

S21
dorian 4 1 0
cantus D4 D4 D4
D4:8 C4:8 D4:8
r:4 B4:8 A4:4 D5:8
=

S21
dorian 4 1 0
cantus D4 D4 D4
D4:8 C4:8 D4:8
r:4 F4:8 E4:4 D4:8
=

S21
dorian 4 1 0
cantus D4 D4 D4
D4:8 B3:8 D4:8
r:4 F4:8 D4:4 D4:8
=
S21 8 3

S21
dorian 4 0 1
cantus D4 D4 D4
r:4 D4:8 C4:4 D4:8
F4:8 E4:8 D4:8
=

S21
dorian 4 0 1
cantus D4 D4 D4
r:4 D4:8 C4:4 D4:8
F4:8 G4:8 D4:8
=
S21 8 3

S22
dorian 1 1 0
cantus D4 D4 D4
D4:8 C#4:8 D4:8
A4:8 E4:8 A4:8
=

S22
dorian 1 1 0
cantus D4 D4 D4
D4:8 E4:8 D4:8
D5:8 B4:4 C#5:4 D5:8
=
S22 16 3

S22
dorian 2 1 0
cantus D4 D4 D4
D4:8 E4:8 D4:8
D5:8 B4:4 C#5:4 D5:8
=

S22
dorian 4 1 0
cantus D4 D4 D4
D4:8 E4:8 D4:8
r:4 D5:8 C#5:4 D5:8
=

S22
dorian 4 1 0
cantus D4 D4 D4
D4:8 F4:8 D4:8
r:4 D5:8 C#5:4 D5:8
=
S22 16 3

S22
dorian 4 0 1
cantus D4 D4 D4
r:4 D4:8 C#4:4 D4:8
F4:8 E4:8 D4:8
=

S23
dorian 1 1 0
cantus D4 D4 D4
C#4:8 C#4:8 D4:8
C#5:8 C5:8 D5:8
=

Q3
dorian 1 1 0
cantus D4 D4 D4
D3:24
A3:24
D4:24
=
Q3 8 1

Q3
dorian 1 1 0
cantus D4 D4 D4
D3:24
A3:24
F4:24
=

Q4
dorian 1 1 0
cantus D4 D4 D4
D3:24
A4:24
A5:24
=

Q4
dorian 1 1 0
cantus D4 D4 D4
D3:24
B4:24
C6:24
=
Q4 0 2
Q4 8 2
Q4 16 2

Q5
dorian 1 1 0
cantus D4 D4 D4
D3:24
F3:24
F4:24
=
Q5 0 1
Q5 8 1
Q5 16 1

Q5
dorian 1 1 0
cantus D4 D4 D4
D3:24
F3:24
A4:24
=

Q6
dorian 1 1 0
cantus D4 D4 D4
D4:8 E4:8 D4:8
C4:8 D4:8 C5:8
range 1 C4 C5
=
Q6 0 1
Q6 16 1

Q6
dorian 1 1 0
cantus D4 D4 D4
D4:8 E4:8 D4:8
G4:8 D5:8 B4:8
range 1 G4 D5
=

Q12
dorian 1 1 0
cantus D4 D4 D4
D3:8 E3:16
A3:8 B3:16
F4:24
=
Q12 8 1

Q12
dorian 1 1 0
cantus D4 D4 D4
D3:8 E3:16
F3:24
A4:8 B4:16
=

Q12
dorian 1 1 0
cantus D4 D4 D4
D3:8 E3:16
A3:8 B3:16
=

Q15
dorian 4 1 0
cantus D4 D4 D4 D4
D4:8 F4:8 E4:8 D4:8
r:4 A4:4 B4:8 C5:8 D5:8
=
Q15 8 1
Q15 16 1

Q15
dorian 4 1 0
cantus D4 D4 D4 D4
D4:8 F4:8 E4:8 D4:8
r:4 A4:8 B4:8 C5:4 D5:8
=

Q16
dorian 2 1 0
cantus D4 D4 D4 D4
D4:8 F4:8 E4:8 D4:8
D5:4 B4:4 D5:4 B4:4 D5:4 B4:4 D5:8
=
Q16 8 1
Q16 16 1

Q16
dorian 5 1 0
cantus D4 D4 D4 D4
D4:8 F4:8 E4:8 D4:8
D5:24 D5:8
=
Q16 16 1

Q16
dorian 1 1 0
cantus D4 D4 D4
D4:24
D5:8 D5:8 D5:8
=

Q21
dorian 1 1 0
cantus D4 D4 D4 D4 D4 D4
D4:8 D4:8 D4:8 D4:8 D4:8 D4:8
A4:8 Bb4:8 A4:8 B4:8 G4:8 A4:8
=
Q21 24 1

Q21
dorian 1 1 0
cantus D4 D4 D4 D4 D4 D4
D4:8 D4:8 D4:8 D4:8 D4:8 D4:8
A4:8 Bb4:8 A4:8 G4:8 B4:8 Bb5:8
=
Q21 40 1

Q21
dorian 2 1 0
cantus D4 D4 D4 D4
D4:8 D4:8 D4:8 D4:8
Bb4:5 A4:16 B4:4 C5:7
=

Q21
dorian 2 1 0
cantus D4 D4 D4 D4
D4:8 D4:8 D4:8 D4:8
Bb4:5 A4:15 B4:4 C5:8
=
Q21 20 1

Q21
dorian 1 1 0
cantus Bb3 B3 D4
Bb3:8 B3:8 D4:8
Bb4:4 B4:4 Bb4:4 B4:4 B4:8
C5:8 C5:8 C#5:8
=
Q21 4 1
Q21 8 1
Q21 12 1
Q21 16 2

Q17 Q18 Q19 Q20
dorian 1 1 0
cantus D4 D4 D4 D4 D4 D4 D4 D4 D4 D4 D4
D4:8 F4:8 E4:8 D4:8 G4:8 F4:8 A4:8 G4:8 F4:8 E4:8 D4:8
A4:8 A4:8 G4:8 A4:8 B4:8 C5:8 C5:8 B4:8 D5:8 C#5:8 D5:8
=
Q17 1 1

Q17 Q18 Q19 Q20
dorian 1 1 0
cantus D4 D4 D4
D4:8 E4:8 D4:8
A4:8 C#5:8 D5:8
=
Q18 1 1
Q19 1 1

Q17 Q18 Q19 Q20
dorian 1 1 0
cantus D4 D4 D4
D4:8 E4:8 D4:8
D5:8 C#5:8 D5:8
=
Q17 1 1
Q18 1 1

Q17 Q18 Q19 Q20
dorian 3 1 0
cantus D4 D4 D4
D4:8 E4:8 D4:8
A4:2 A4:2 A4:2 A4:2 A4:2 A4:2 A4:2 A4:2 A4:8
=
Q17 1 8
Q18 1 1
Q20 1 5";
