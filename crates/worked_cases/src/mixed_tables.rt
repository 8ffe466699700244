//! Settings of mixed exercises, with their breaks of S27 and S28: bar, slot, rule, and the bits of
//! the voices. A line `mixed` has the species of the voices.

/// Settings that were made for one sentence of the two rules each.
pub const WORKED: &str = "\
; one excuse is enough: C5 is passing, and clashes with both other voices
dorian 2 2 0
mixed 1 2 2
cantus D3 E3 D3
D3:8 E3:8 D3:8
A3:4 B3:4 G3:4 E3:4 A3:8
D5:4 C5:4 B4:4 C#5:4 D5:8
=

; neither start is excused: A4 is left by a step and entered by a leap, B3 is left by a leap
dorian 2 2 0
mixed 1 2 2
cantus D3 E3 D3
D3:8 E3:8 D3:8
A3:4 B3:4 G3:4 E3:4 A3:8
D5:4 A4:4 B4:4 C#5:4 D5:8
=
1 4 S27 6

; the lower voice's start is excused, for either voice: E4 is passing
dorian 1 1 0
mixed 1 2 2
cantus D3 C3 D3
D3:8 C3:8 D3:8
D4:4 E4:4 F4:4 A4:4 D4:8
A4:4 D5:4 A4:4 C5:4 D5:8
=

; a neighbor in species 2, where the exercise has species 3
dorian 3 1 0
mixed 1 2
cantus D3 D3 D3
D3:8 D3:8 D3:8
F3:4 E3:4 F3:4 E3:4 F3:8
=
1 4 S27 3
2 4 S27 3

; neighbors in species 3, where the exercise has species 2
dorian 2 1 0
mixed 1 3
cantus D3 D3 D3
D3:8 D3:8 D3:8
F3:2 E3:2 F3:2 E3:2 F3:2 E3:2 F3:2 E3:2 F3:8
=

; a neighbor in species 2 against a voice of species 5, and one in species 5 against the voice of species 2
dorian 5 2 0
mixed 1 2 5
cantus D3 D3 D3
D3:8 D3:8 D3:8
F4:4 E4:4 F4:4 D4:4 F4:8
D5:8 A4:2 G4:2 A4:4 D5:8
=
1 4 S27 3
1 4 S27 6

; a suspension waits for the other voice, which moves with the resolution
dorian 4 1 0
mixed 1 4 2
cantus D3 E3 D3
D3:8 E3:8 D3:8
r:4 D4:8 C4:4 D4:8
F4:4 A4:4 C5:4 A4:4 D5:8
=
2 4 S27 5

; the other voice starts a note in slot 2, which disturbs the suspension
dorian 4 1 0
mixed 1 4 3
cantus D3 E3 D3
D3:8 E3:8 D3:8
r:4 D4:8 C4:4 D4:8
F4:2 G4:2 A4:2 B4:2 C5:2 B4:2 A4:2 C5:2 D5:8
=
2 0 S28 6
2 4 S27 5

; the suspended voice is the upper one, and the exercise's species another
dorian 2 1 2
mixed 3 4 1
cantus A4 A4 A4
D4:2 E4:2 F4:2 D4:2 C4:2 E4:2 F4:2 E4:2 D4:8
r:4 D4:8 C4:4 D4:8
A4:8 A4:8 A4:8
=
2 0 S28 3
2 2 S27 3
2 2 S27 5

; starts in slots 2 and 3, of a florid voice against another one that holds, and holds too
dorian 1 3 0
mixed 1 1 5 5
cantus D3 E3 D3
D3:8 E3:8 D3:8
A3:8 G3:8 A3:8
r:4 D4:6 E4:1 F4:1 D4:2 C4:2 D4:8
G4:4 E5:8 C5:4 D5:8
=
1 4 S27 9
1 4 S27 12
2 0 S28 12
2 3 S27 5
2 3 S27 6
2 3 S27 12
2 4 S27 5
2 4 S27 12

; a start in slot 1 alone, which no shape has
dorian 4 1 0
mixed 1 4 5
cantus D3 E3 D3
D3:8 E3:8 D3:8
r:4 D4:8 C4:4 D4:8
F4:4 A4:4 C5:1 A4:7 D5:8
=
2 0 S28 6
2 1 S27 5

; a start in slot 3 alone, which no shape has
dorian 4 1 0
mixed 1 4 5
cantus D3 E3 D3
D3:8 E3:8 D3:8
r:4 D4:8 C4:4 D4:8
F4:4 A4:4 C5:3 A4:5 D5:8
=
2 0 S28 6
2 3 S27 5

; a voice that holds a clash into the last bar, where the other one starts a note in slot 3: no shapes either
dorian 4 1 0
mixed 1 4 5
cantus D3 E3 D3
D3:8 E3:8 D3:8
r:4 D4:8 C4:12
F4:4 A4:4 A4:8 D5:3 E5:5
=
3 0 S28 6
3 3 S27 5";

/// Settings in two, three and four voices, with the cantus firmus in each of them; their breaks
/// were found by another reading of the two sentences. Of each two species that can clash they have
/// a break of S27, an excuse of either voice and of both, where the one starts a note, where the
/// other does and where both do; and of S28 each slot and each two species that shapes leave.
pub const JUDGED: &str = "\
; the cantus in voice 0
phrygian 3 1 0
mixed 1 3
cantus D4 E4 F4
D4:8 E4:8 F4:8
D5:2 C5:2 F5:2 E5:2 D5:2 E5:2 D5:2 B4:2 C5:8
=
1 2 S27 3

; the cantus in voice 1
dorian 4 0 1
mixed 3 1
cantus G4 E4 D4
r:2 E3:2 D3:2 C3:2 G3:2 A3:2 B3:2 D4:2 C4:8
G4:8 E4:8 D4:8
=
2 4 S27 3
2 6 S27 3

; the cantus in voice 0
ionian 2 2 0
mixed 1 5 2
cantus G3 A3 B3
G3:8 A3:8 B3:8
C5:6 A4:4 B4:1 A4:1 D5:2 C5:2 D5:8
r:4 B4:4 A4:4 C5:4 D5:8
=
1 4 S27 6
1 6 S27 3
1 6 S27 6
2 4 S27 3
2 4 S27 6

; the cantus in voice 0
mixolydian 2 1 0
mixed 1 4 5
cantus D4 E4 D4
D4:8 E4:8 D4:8
r:4 F4:8 E4:4 F4:8
G5:6 F5:2 E5:2 D5:2 E5:2 F5:1 G5:1 A5:8
=
1 4 S27 6
2 0 S28 6

; the cantus in voice 1
phrygian 3 0 1
mixed 5 1 5
cantus A4 G4 C4
G3:2 F3:2 C4:4 A3:2 E4:2 F4:2 E4:1 D4:1 B3:8
A4:8 G4:8 C4:8
F5:2 E5:2 C5:2 D5:4 C5:1 B4:1 C5:4 D5:8
=
2 0 S28 5
2 7 S27 3
2 7 S27 5

; the cantus in voice 1
phrygian 3 2 1
mixed 2 1 5
cantus C5 B4 A4
G3:4 F3:4 D3:4 E3:4 D3:8
C5:8 B4:8 A4:8
G4:6 F4:6 G4:2 F4:1 G4:1 F4:8
=
1 4 S27 5

; the cantus in voice 1
lydian 5 0 1
mixed 4 1 4
cantus C5 F5 E5 D5
r:4 D4:8 C4:8 A3:4 B3:8
C5:8 F5:8 E5:8 D5:8
r:4 A4:8 B4:8 C5:4 B4:8
=
1 4 S27 3
2 4 S27 3

; the cantus in voice 1
aeolian 1 2 1
mixed 4 1 5
cantus E4 D4 C4
r:4 C4:4 D4:4 E4:4 F4:8
E4:8 D4:8 C4:8
r:4 G5:4 A5:6 B5:2 A5:8
=

; the cantus in voice 1
dorian 3 2 1
mixed 4 1 2
cantus D5 B4 C5
r:4 F3:8 E3:4 D3:8
D5:8 B4:8 C5:8
r:4 E5:4 B5:4 A5:4 G5:8
=
1 4 S27 5
1 4 S27 6

; the cantus in voice 2
mixolydian 1 0 2
mixed 5 5 1
cantus D5 G5 F5
A3:4 G3:6 F3:1 E3:1 F3:2 D3:2 E3:8
E4:6 C4:4 E4:1 D4:1 C4:4 D4:8
D5:8 G5:8 F5:8
=
1 6 S27 3
1 6 S27 6
2 0 S28 3
2 4 S27 5
2 6 S27 3
2 6 S27 5

; the cantus in voice 0
mixolydian 5 2 0
mixed 1 4 2 3
cantus E3 F3 E3 D3
E3:8 F3:8 E3:8 D3:8
r:4 C4:4 F4:4 G4:8 F4:4 E4:8
r:4 D5:4 C5:4 D5:4 C5:4 D5:4 C5:8
r:2 B4:2 F5:2 C5:2 F5:2 G5:2 E5:2 D5:2 A5:2 G5:2 F5:2 E5:2 F5:8
=
1 4 S27 5
1 4 S27 9
1 4 S27 6
1 6 S27 12
2 2 S27 9
2 2 S27 10
2 4 S27 3
2 4 S27 9
2 4 S27 12
3 0 S28 10
3 4 S27 5

; the cantus in voice 1
mixolydian 4 0 1
mixed 5 1 3 5
cantus E4 D4 E4 F4
C4:2 D4:1 C4:1 B3:2 D4:6 E4:6 F4:2 E4:2 D4:2 E4:8
E4:8 D4:8 E4:8 F4:8
r:2 G4:2 C5:2 D5:2 E5:2 D5:2 C5:2 D5:2 E5:2 F5:2 E5:2 D5:2 C5:8
G5:4 F5:2 C5:6 B4:2 A4:4 B4:2 E4:2 F4:2 A4:8
=
1 4 S27 3
1 4 S27 5
1 4 S27 9
1 4 S27 10
1 6 S27 3
1 6 S27 9
2 0 S28 5
3 0 S28 9
3 6 S27 10

; the cantus in voice 1
mixolydian 3 3 1
mixed 5 1 1 2
cantus B3 C4 E4 F4
G3:2 A3:2 B3:2 A3:1 G3:1 A3:4 E4:4 D4:2 E4:2 D4:4 C4:8
B3:8 C4:8 E4:8 F4:8
E4:8 D4:8 E4:8 F4:8
r:4 F5:4 G5:4 F5:4 E5:4 F5:4 G5:8
=
1 4 S27 12
2 4 S27 5

; the cantus in voice 1
lydian 4 3 1
mixed 3 1 2 1
cantus D4 C4 E4
r:2 B3:2 A3:2 B3:2 C4:2 B3:2 A3:2 G3:2 F3:8
D4:8 C4:8 E4:8
r:4 G4:4 F4:4 G4:4 A4:8
C5:8 F5:8 E5:8
=
1 2 S27 9

; the cantus in voice 1
aeolian 2 0 1
mixed 2 1 2 5
cantus A3 B3 C4 D4
r:4 B3:4 A3:4 G3:4 F3:4 G3:4 A3:8
A3:8 B3:8 C4:8 D4:8
G4:4 F4:4 E4:4 A4:4 G4:4 F4:4 E4:8
G4:2 F4:2 E4:2 F4:4 G4:2 F4:4 G4:6 A4:2 B4:8
=
1 4 S27 3
2 4 S27 6

; the cantus in voice 1
mixolydian 4 0 1
mixed 2 1 3 4
cantus C4 B3 A3 G3
E3:4 B3:4 F3:4 E3:4 F3:4 G3:4 A3:8
C4:8 B3:8 A3:8 G3:8
A4:2 G4:2 A4:2 B4:2 A4:2 B4:2 F4:2 E4:2 F4:2 D4:2 C4:2 D4:2 C4:8
r:4 F5:8 G5:8 A5:4 B5:8
=
1 4 S27 3
1 4 S27 9
2 2 S27 5
2 4 S27 5
3 0 S28 12

; the cantus in voice 1
mixolydian 3 0 1
mixed 5 1 3 4
cantus D4 E4 D4
B3:6 G3:2 B3:2 A3:2 G3:2 F3:2 E3:8
D4:8 E4:8 D4:8
r:2 A4:2 E5:2 F5:2 E5:2 F5:2 E5:2 D5:2 E5:8
r:4 F5:8 A5:4 G5:8
=
1 2 S27 5
1 4 S27 5
1 4 S27 9
1 4 S27 6
1 4 S27 12
1 6 S27 9
2 0 S28 9
2 0 S28 12

; the cantus in voice 2
mixolydian 3 1 2
mixed 4 2 1 5
cantus B4 A4 G4 F4
r:4 F3:8 E3:8 D3:4 E3:8
E4:4 F4:4 G4:4 A4:4 G4:4 F4:4 E4:8
B4:8 A4:8 G4:8 F4:8
r:4 E5:6 F5:1 G5:1 F5:6 A5:2 G5:4 F5:8
=
1 4 S27 5
1 4 S27 9
2 0 S28 9
3 0 S28 9
3 2 S27 9
3 2 S27 10
3 2 S27 12
3 4 S27 5

; the cantus in voice 2
mixolydian 4 0 2
mixed 4 4 1 5
cantus G4 A4 E4 F4
r:4 C4:8 B3:8 A3:4 G3:8
r:4 B3:8 A3:8 G3:4 A3:8
G4:8 A4:8 E4:8 F4:8
C5:2 B4:1 C5:1 B4:2 A4:4 G4:2 A4:8 B4:2 C5:1 D5:1 B4:8
=
1 4 S27 3
2 0 S28 10
3 7 S27 9
3 7 S27 12

; the cantus in voice 2
lydian 3 0 2
mixed 4 1 1 3
cantus F4 G4 A4 G4
r:4 D4:8 C4:8 B3:4 A3:8
C4:8 B3:8 G3:8 F3:8
F4:8 G4:8 A4:8 G4:8
D5:2 B4:2 F5:2 E5:2 D5:2 E5:2 D5:2 C5:2 D5:2 E5:2 D5:2 C5:2 D5:8
=
1 2 S27 10
1 4 S27 3
3 0 S28 9

; the cantus in voice 2
dorian 1 1 2
mixed 5 4 1 2
cantus A4 G4 D5
A3:2 B3:2 F3:2 E3:1 F3:1 G3:6 A3:2 B3:8
r:4 G4:8 A4:4 B4:8
A4:8 G4:8 D5:8
r:4 C5:4 B4:4 A4:4 G4:8
=
1 2 S27 5
1 4 S27 3
1 4 S27 6

; the cantus in voice 2
ionian 3 1 2
mixed 4 2 1 3
cantus D5 E5 D5
r:4 F3:8 G3:4 A3:8
D4:4 E4:4 F4:4 G4:4 A4:8
D5:8 E5:8 D5:8
D5:2 E5:2 F5:2 E5:2 D5:2 C5:2 F4:2 E4:2 F4:8
=
2 4 S27 12

; the cantus in voice 2
phrygian 5 1 2
mixed 2 4 1 2
cantus E4 D4 E4 F4
B3:4 A3:4 G3:4 F3:4 G3:4 F3:4 G3:8
r:4 D4:8 C4:8 B3:4 A3:8
E4:8 D4:8 E4:8 F4:8
r:4 E5:4 F5:4 G5:4 A5:4 B5:4 A5:8
=
1 4 S27 6
1 4 S27 10
3 4 S27 5
3 4 S27 9

; the cantus in voice 2
mixolydian 2 0 2
mixed 3 2 1 5
cantus B4 C5 B4
r:2 F3:2 G3:2 A3:2 E3:2 F3:2 E3:2 F3:2 E3:8
r:4 C4:4 B3:4 C4:4 D4:8
B4:8 C5:8 B4:8
C5:2 B4:1 E4:1 B4:8 C5:2 D5:2 F5:8
=
1 2 S27 5
1 2 S27 9
1 3 S27 9
1 4 S27 6
1 4 S27 10
1 6 S27 5
1 6 S27 9
2 6 S27 10
2 6 S27 12

; the cantus in voice 3
dorian 1 0 3
mixed 5 3 4 1
cantus D5 E5 B5 A5
C4:2 D4:2 E4:2 D4:2 E4:2 F4:1 E4:1 D4:2 C4:2 D4:2 E4:1 F4:1 B3:4 F3:8
r:2 D4:2 C4:2 D4:2 C4:2 F4:2 E4:2 F4:2 E4:2 B3:2 A3:2 B3:2 C4:8
r:4 D5:8 C5:4 B4:4 C5:4 D5:8
D5:8 E5:8 B5:8 A5:8
=
2 0 S28 5
2 0 S28 6
2 2 S27 10
3 3 S27 3
3 3 S27 5
3 3 S27 9

; the cantus in voice 3
aeolian 5 2 3
mixed 3 5 2 1
cantus A4 G4 F4
r:2 A3:2 F3:2 B3:2 C4:2 A3:2 G3:2 D4:2 C4:8
C4:4 G3:8 F3:2 G3:1 A3:1 B3:8
r:4 B4:4 A4:4 G4:4 F4:8
A4:8 G4:8 F4:8
=
1 4 S27 3
1 4 S27 5
1 4 S27 10
1 4 S27 12
1 6 S27 9
2 0 S28 3
2 2 S27 3
2 2 S27 9
2 6 S27 5
2 6 S27 9

; the cantus in voice 3
aeolian 3 1 3
mixed 3 4 3 1
cantus A4 B4 C5 D5
r:2 D4:2 E4:2 F4:2 E4:2 B3:2 C4:2 D4:2 E4:2 D4:2 C4:2 B3:2 C4:8
r:4 A3:8 B3:8 C4:4 B3:8
G4:2 C5:2 B4:2 A4:2 G4:2 F4:2 G4:2 F4:2 E4:2 B4:2 D5:2 C5:2 D5:8
A4:8 B4:8 C5:8 D5:8
=
1 2 S27 5
2 0 S28 6
2 2 S27 3
3 0 S28 3
3 2 S27 12
3 4 S27 6
3 4 S27 12

; the cantus in voice 3
phrygian 1 2 3
mixed 1 5 4 1
cantus G4 A4 G4
G3:8 F3:8 G3:8
B3:6 C4:6 F4:2 E4:2 F4:8
r:4 C5:4 D5:4 E5:4 F5:8
G4:8 A4:8 G4:8
=
1 4 S27 5
1 4 S27 6
1 6 S27 3

; the cantus in voice 3
mixolydian 4 0 3
mixed 3 2 1 1
cantus G5 A5 G5 A5
C4:2 D4:2 E4:2 F4:2 E4:2 F4:2 B3:2 C4:2 D4:2 E4:2 F4:2 B3:2 C4:8
r:4 C4:4 G4:4 A4:4 B4:4 A4:4 G4:8
B4:8 C5:8 D5:8 C5:8
G5:8 A5:8 G5:8 A5:8
=
1 4 S27 6
2 2 S27 3
2 4 S27 5
2 4 S27 9
3 4 S27 9
3 6 S27 3";
