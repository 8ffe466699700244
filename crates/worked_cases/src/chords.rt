//! Cases of the rules and tolls that are read from one column or two, worked out by hand. Each
//! begins with what is asked: rules by `S`, tolls and gauges by `Q`, or the shapes that are left of
//! voice 1. Then comes a case as the builder reads it, and behind a line `=` what stands: a rule
//! with its column and the bits of its voices, a toll with its column and its cost, or a gauge with
//! its voice and its value.

pub const CASES: &str = "\
S1 S2 S3 S12 S13 S24
dorian 1 1 0
cantus D3 E3 D3
D3:8 E3:8 D3:8
A3:8 B3:8 D4:8
D4:8 G4:8 A4:8
range 1 A3 D5
range 2 A3 G5
range 1 A3 A4 2 2
=

S1 S2 S3 S12 S13 S24
dorian 1 1 0
cantus D3 E3 D3
D3:8 E3:8 D3:8
D5:8 B3:8 D5:8
D4:8 G4:8 A4:8
range 1 A3 D5
range 2 A3 G5
range 1 A3 A4 2 2
=

S1 S2 S3 S12 S13 S24
dorian 1 1 0
cantus D3 E3 D3
D3:8 E3:8 D3:8
A5:8 B3:8 D4:8
D4:8 G4:8 A4:8
range 1 A3 D5
range 2 A3 G5
range 1 A3 A4 2 2
=
S1 0 2

S1 S2 S3 S12 S13 S24
dorian 1 1 0
cantus D3 E3 D3
D3:8 E3:8 D3:8
D3:8 B3:8 D4:8
D4:8 G4:8 A4:8
range 1 A3 D5
range 2 A3 G5
range 1 A3 A4 2 2
=
S1 0 2

S1 S2 S3 S12 S13 S24
dorian 1 1 0
cantus D3 E3 D3
D3:8 E3:8 D3:8
A3:8 B4:8 D4:8
D4:8 G4:8 A4:8
range 1 A3 D5
range 2 A3 G5
range 1 A3 A4 2 2
=
S1 8 2

S1 S2 S3 S12 S13 S24
dorian 4 1 0
cantus D3 E3 D3
D3:8 E3:8 D3:8
r:4 D5:8 B3:4 D4:8
D4:8 G4:8 A4:8
range 1 A3 D5
range 2 A3 G5
range 1 A3 A4 2 2
=
S1 8 2

S1 S2 S3 S12 S13 S24
dorian 1 1 0
cantus D3 E3 D3
D3:8 E3:8 D3:8
A3:8 C#4:8 D4:8
D4:8 G4:8 A4:8
range 1 A3 D5
range 2 A3 G5
range 1 A3 A4 2 2
=

S1 S2 S3 S12 S13 S24
dorian 1 1 0
cantus D3 E3 D3
D3:8 E3:8 D3:8
A3:8 F#4:8 D4:8
D4:8 G4:8 A4:8
range 1 A3 D5
range 2 A3 G5
range 1 A3 A4 2 2
=
S2 8 2

S1 S2 S3 S12 S13 S24
dorian 2 1 0
cantus D3 E3 D3
D3:8 E3:8 D3:8
A3:4 C#4:4 B3:4 C#4:4 D4:8
D4:8 G4:8 A4:8
range 1 A3 D5
range 2 A3 G5
range 1 A3 A4 2 2
=
S2 4 2

S1 S2 S3 S12 S13 S24
dorian 1 1 0
cantus D3 E3 D3
D3:8 E3:8 D3:8
A3:4 B3:4 B3:8 D4:8
D4:8 G4:8 A4:8
range 1 A3 D5
range 2 A3 G5
range 1 A3 A4 2 2
=
S3 0 2

S1 S2 S3 S12 S13 S24
dorian 2 1 0
cantus D3 E3 D3
D3:8 E3:8 D3:8
r:4 A3:4 B3:4 C4:4 D4:8
D4:8 G4:8 A4:8
range 1 A3 D5
range 2 A3 G5
range 1 A3 A4 2 2
=

S1 S2 S3 S12 S13 S24
dorian 2 1 0
cantus D3 E3 D3
D3:8 E3:8 D3:8
A3:4 B3:8 C4:4 D4:8
D4:8 G4:8 A4:8
range 1 A3 D5
range 2 A3 G5
range 1 A3 A4 2 2
=
S3 8 2

S1 S2 S3 S12 S13 S24
dorian 2 1 0
cantus D3 E3 D3
D3:8 E3:8 D3:8
A3:4 B3:4 B3:4 C4:4 D4:4 A3:4
D4:8 G4:8 A4:8
range 1 A3 D5
range 2 A3 G5
range 1 A3 A4 2 2
=
S3 16 2

S1 S2 S3 S12 S13 S24
dorian 3 1 0
cantus D3 E3 D3
D3:8 E3:8 D3:8
r:2 A3:2 B3:2 C4:2 B3:2 C4:2 B3:2 C#4:2 D4:8
D4:8 G4:8 A4:8
range 1 A3 D5
range 2 A3 G5
range 1 A3 A4 2 2
=

S1 S2 S3 S12 S13 S24
dorian 5 1 0
cantus D3 E3 D3
D3:8 E3:8 D3:8
A3:2 B3:2 C4:2 B3:1 C4:1 D4:4 C4:4 D4:8
D4:8 G4:8 A4:8
range 1 A3 D5
range 2 A3 G5
range 1 A3 A4 2 2
=

S1 S2 S3 S12 S13 S24
dorian 5 1 0
cantus D3 E3 D3
D3:8 E3:8 D3:8
A3:2 B3:2 C4:2 B3:1 C4:1 B3:8 D4:8
D4:8 G4:8 A4:8
range 1 A3 D5
range 2 A3 G5
range 1 A3 A4 2 2
=
S3 8 2

S1 S2 S3 S12 S13 S24
dorian 1 1 0
cantus D3 E3 D3
D3:8 E3:8 D3:8
B3:8 A3:8 D4:8
D4:8 G4:8 A4:8
range 1 A3 D5
range 2 A3 G5
range 1 A3 A4 2 2
=
S12 0 2

S1 S2 S3 S12 S13 S24
dorian 4 1 0
cantus D3 E3 D3
D3:8 E3:8 D3:8
r:4 B3:8 C4:4 D4:8
D4:8 G4:8 A4:8
range 1 A3 D5
range 2 A3 G5
range 1 A3 A4 2 2
=
S12 4 2

S1 S2 S3 S12 S13 S24
dorian 1 0 1
cantus D3 E3 D3
D2:8 C#3:8 D3:8
D3:8 E3:8 D3:8
range 0 C2 G5
=

S1 S2 S3 S12 S13 S24
dorian 1 0 1
cantus D3 E3 D3
G2:8 C#3:8 D3:8
D3:8 E3:8 D3:8
range 0 C2 G5
=
S12 0 1

S1 S2 S3 S12 S13 S24
dorian 1 1 0
cantus D3 E3 D3
D3:8 E3:8 D3:8
A3:8 B3:8 E4:8
D4:8 G4:8 A4:8
range 1 A3 D5
range 2 A3 G5
range 1 A3 A4 2 2
=
S13 16 3

S1 S2 S3 S12 S13 S24
dorian 1 1 0
cantus D3 E3 D3
D3:8 E3:8 D3:8
A3:8 B3:8 A3:8
D4:8 G4:8 F4:8
range 1 A3 D5
range 2 A3 G5
range 1 A3 A4 2 2
=
S13 16 5

S1 S2 S3 S12 S13 S24
dorian 1 1 0
cantus D3 E3 D3
D3:8 E3:8 D3:8
A3:8 B3:8 A3:8
D4:8 G4:8 F#4:8
range 1 A3 D5
range 2 A3 G5
range 1 A3 A4 2 2
=
S2 16 4

S1 S2 S3 S12 S13 S24
dorian 1 1 0
cantus D3 E3 D3
D3:8 E3:8 D3:8
A3:8 C#4:8 D4:8
range 1 C2 G5
=

S1 S2 S3 S12 S13 S24
dorian 1 1 0
cantus D3 E3 D3
D3:8 E3:8 D3:8
A3:8 C#4:8 A3:8
range 1 C2 G5
=
S13 16 3

S1 S2 S3 S12 S13 S24
dorian 1 1 0
cantus D3 E3 D3
D3:8 E3:8 A3:8
A3:8 B3:8 A4:8
D4:8 G4:8 A4:8
range 1 A3 D5
range 2 A3 G5
range 1 A3 A4 2 2
=
S24 16 1

shapes
dorian 3 1 0
cantus D3 E3 D3
D3:1
r:1
D4:1
=
settled false, broken false, left 2

shapes
dorian 3 1 0
cantus D3 E3 D3
D3:7
r:2 A3:2 B3:2 C4:1
D4:7
=
settled false, broken false, left 2

shapes
dorian 3 1 0
cantus D3 E3 D3
D3:8
r:2 A3:2 B3:2 C4:2
D4:8
=
settled true, broken false, left 2

shapes
dorian 3 1 0
cantus D3 E3 D3
D3:1
A3:1
D4:1
=
settled false, broken false, left 1

shapes
dorian 3 1 0
cantus D3 E3 D3
D3:8
A3:2 B3:2 C4:2 B3:2
D4:8
=
settled true, broken false, left 1

shapes
dorian 3 1 0
cantus D3 E3 D3
D3:1
A3:1
D4:1
=
settled false, broken false, left 1

shapes
dorian 3 1 0
cantus D3 E3 D3
D3:2
A3:1 B3:1
D4:2
=
settled true, broken true, left 0

shapes
dorian 3 1 0
cantus D3 E3 D3
D3:2
r:2
D4:2
=
settled false, broken false, left 2

shapes
dorian 3 1 0
cantus D3 E3 D3
D3:3
r:3
D4:3
=
settled true, broken true, left 0

shapes
dorian 3 1 0
cantus D3 E3 D3
D3:8
r:4 A3:4
D4:8
=
settled true, broken true, left 0

S10 S16 S17 Q11
dorian 2 1 0
cantus D3 E3 F3 E3 D3
D3:40
A3:40
D4:4 G3:36
=
S10 4 6

S10 S16 S17 Q11
dorian 2 1 0
cantus D3 E3 F3 E3 D3
D3:40
A3:40
D4:4 A3:36
=

S10 S16 S17 Q11
dorian 2 1 0
cantus D3 E3 F3 E3 D3
D3:40
A3:4 C3:36
D4:40
=
S10 4 3

S10 S16 S17 Q11
dorian 2 1 0
cantus D3 E3 F3 E3 D3
D3:40
A3:4 B3:36
E4:4 F#4:36
=
S16 4 6
Q11 4 1

S10 S16 S17 Q11
dorian 2 1 0
cantus D3 E3 F3 E3 D3
D3:40
A3:4 B3:36
E4:4 F4:36
=
Q11 4 1

S10 S16 S17 Q11
dorian 2 1 0
cantus D3 E3 F3 E3 D3
D3:40
A3:4 B3:36
E4:4 B4:36
=
Q11 4 1

S10 S16 S17 Q11
dorian 2 1 0
cantus D3 E3 F3 E3 D3
D3:4 C3:36
A3:4 G4:36
C5:40
=
S16 4 3

S10 S16 S17 Q11
dorian 2 1 0
cantus D3 E3 F3 E3 D3
D3:4 E3:36
A3:40
E4:4 B4:36
=
S17 4 5
Q11 4 1

S10 S16 S17 Q11
dorian 2 1 0
cantus D3 E3 F3 E3 D3
D3:4 E3:36
A3:40
E4:4 G4:36
=
Q11 4 1

S10 S16 S17 Q11
dorian 2 1 0
cantus D3 E3 F3 E3 D3
D3:4 C3:36
A3:40
E4:4 G4:36
=

S10 S16 S17 Q11
dorian 2 1 0
cantus D3 E3 F3 E3 D3
D3:4 E3:36
G3:4 B3:36
C5:40
=
Q11 4 1

S10 S16 S17 Q11
dorian 2 1 0
cantus D3 E3 F3 E3 D3
D3:4 E3:36
F3:4 G3:36
A3:4 C4:36
=
Q11 4 3

Q14
dorian 2 1 0
cantus D3 E3 F3 E3 D3
D3:8 E3:8 F3:8 E3:8 D3:8
F3:8 G3:8 A3:8 G3:8 F3:8
D4:40
=
Q14 24 1
Q14 32 1

Q14
dorian 2 1 0
cantus D3 E3 F3 E3 D3
D3:8 E3:8 F3:8 E3:8 D3:8
F3:8 G4:8 A3:8 G3:8 F3:8
D4:40
=
Q14 24 1
Q14 32 1

Q14
dorian 2 1 0
cantus D3 E3 F3 E3 D3
D3:8 E3:8 F3:8 E3:8 D3:8
F3:8 G3:8 D4:8 G3:8 F3:8
D4:40
=

Q14
dorian 2 1 0
cantus D3 E3 F3 E3 D3
D3:8 E3:8 F3:8 E3:8 D3:8
A3:8 G3:8 A3:8 G3:8 F3:8
D4:40
=
Q14 32 1

Q14
dorian 2 1 0
cantus D3 E3 F3 E3 D3
D3:8 E3:8 F3:8 E3:8 D3:8
B3:8 C4:8 D4:8 C4:8 A3:8
D4:40
=
Q14 24 1

S11 S14
dorian 2 1 0
cantus D3 E3 D3
D3:8 E3:8 D3:8
A3:8 G3:8 A3:8
D4:8 C4:8 D4:8
=

S11 S14
dorian 2 1 0
cantus D3 E3 D3
D3:8 E3:8 D3:8
A3:8 E3:8 A3:8
D4:8 C4:8 D4:8
=
S11 8 3

S11 S14
dorian 2 1 0
cantus D3 E3 D3
D3:8 E3:8 D3:8
A3:8 C4:8 A3:8
D4:8 C4:8 D4:8
=
S11 8 6

S11 S14
dorian 2 1 0
cantus D3 E3 D3
D3:8 E3:8 D3:8
D3:8 G3:8 D3:8
D4:8 C4:8 D4:8
=

S11 S14
dorian 2 1 0
cantus D3 E3 D3
D3:8 E3:8 D3:8
B3:8 A3:8 B3:8
D4:8 C4:8 D4:8
=
S14 8 3

S11 S14
dorian 2 1 0
cantus D3 E3 D3
D3:8 E3:8 D3:8
A3:16 B3:8
D4:8 C4:8 D4:8
=

S11 S14
dorian 2 1 0
cantus D3 E3 D3
D3:8 E3:8 D3:8
A3:8 G3:4 A3:4 B3:8
D4:8 C4:8 D4:8
=

Q1 Q2
dorian 2 1 0
cantus D3 E3 D3
D3:8 E3:8 D3:8
A3:8 G3:8 A3:8
D4:8 C4:8 D4:8
=

Q1 Q2
dorian 2 1 0
cantus D3 E3 D3
D3:8 E3:8 D3:8
A3:8 G3:8 A3:8
D4:8 E4:8 D4:8
=
Q1 8 1

Q1 Q2
dorian 2 1 0
cantus D3 E3 D3
D3:8 E3:8 D3:8
A3:8 E4:8 A3:8
D4:8 C4:8 D4:8
=

Q1 Q2
dorian 2 1 0
cantus D3 E3 D3
D3:8 E3:8 D3:8
A3:8 G3:4 E3:4 A3:8
D4:8 C4:8 D4:8
=
Q2 12 1

Q1 Q2
dorian 2 1 0
cantus D3 E3 D3
D3:8 E3:8 D3:8
A3:8 G3:4 E3:4 A3:8
D4:8 C4:4 E3:4 D4:8
=
Q2 12 3

Q1 Q2
dorian 2 1 0
cantus D3 E3 D3
D3:8 E3:8 D3:8
A3:8 E3:8 A3:8
D4:8 C4:8 D4:8
=";
