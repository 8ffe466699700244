//! Cases of exercises in which each voice has a species of its own, worked out by hand, in the form
//! of the other tables. A line `mixed` has the species of the voices.

pub const CASES: &str = "\
Q15
dorian 4 1 0
mixed 1 4 4
cantus D3 D3 D3 D3
D3:8 D3:8 D3:8 D3:8
r:4 A3:4 B3:8 C4:8 D4:8
r:4 D5:8 E5:4 D5:8 D5:8
=
Q15 8 1
Q15 16 2

Q15
dorian 4 1 0
mixed 1 2 4
cantus D3 D3 D3 D3
D3:8 D3:8 D3:8 D3:8
r:4 A3:4 B3:8 C4:8 D4:8
r:4 D5:8 E5:4 D5:8 D5:8
=
Q15 16 1

Q16
dorian 2 1 0
mixed 1 2 5
cantus D3 D3 D3 D3
D3:8 D3:8 D3:8 D3:8
D4:4 B3:4 D4:4 B3:4 D4:4 B3:4 D4:8
D5:24 D5:8
=
Q16 8 1
Q16 16 2

Q16
dorian 2 1 0
mixed 1 1 5
cantus D3 D3 D3 D3
D3:8 D3:8 D3:8 D3:8
D4:4 B3:4 D4:4 B3:4 D4:4 B3:4 D4:8
D5:24 D5:8
=
Q16 16 1

S18
dorian 2 1 0
mixed 1 2 2
cantus D3 D3 D3
D3:8 D3:8 D3:8
F3:4 G3:4 G3:4 F3:4 A3:8
F4:4 C5:4 G4:4 E4:4 F4:8
=
S18 8 6

S18
dorian 2 1 0
mixed 1 1 2
cantus D3 D3 D3
D3:8 D3:8 D3:8
F3:4 G3:4 G3:4 F3:4 A3:8
F4:4 C5:4 G4:4 E4:4 F4:8
=

S18
dorian 1 1 0
mixed 1 2 1
cantus D3 D3 D3
D3:8 D3:8 D3:8
F3:4 G3:4 G3:4 F3:4 A3:8
F4:4 C5:4 G4:4 E4:4 F4:8
=
S18 8 6";
