//! Settings in two voices, on which `settings` tries the judge.

/// Each setting with what is paid of it. The comment has the rules and tolls of which the rows
/// above lack a voice, two voices or a species.
pub const JUDGED: &str = "\
; S4-S5 S7-S8 S10 S12-S15 S17 S19-S22 S24-S26; Q2 Q6-Q11 Q13 Q17 Q19
mixolydian 5 0 1
cantus G3 A4 E4
F3:2 G3:2 F3:2 D3:1 B3:3 B3:1 F#3:1 E3:2 Bb3:2 A3:8
G3:8 A4:8 E4:8
range 0 G2 B4
relax 21 0 31
relax 13 0 20
relax 10 0 32
relax 19 0 9
relax 25 0 19
relax 14 3 86
relax 4 0 20
relax 17 3 84
relax 12 0 38
relax 20 3 41
relax 26 0 28
relax 22 3 49
relax 15 0 16
=
621

; S4-S10 S12-S15 S17 S19-S26; Q4 Q6-Q10 Q13 Q17 Q19
mixolydian 5 1 0
cantus F3 F#3 D3
F3:8 F#3:8 D3:8
E5:2 E5:1 C4:1 D3:2 G3:4 F3:1 F#3:1 A3:2 B3:2 A3:8
range 1 D3 F5
relax 5 0 36
relax 24 0 25
relax 26 0 10
relax 7 0 16
relax 8 0 7
=
132

; S4-S7 S9 S11-S12 S15-S16 S18 S22 S26; Q1
mixolydian 3 0 1
cantus A3 F4 E4
r:2 C4:2 G2:2 A3:2 F4:2 G4:2 G4:2 F#4:2 E4:8
A3:8 F4:8 E4:8
range 0 G2 A4
relax 5 0 34
relax 7 0 25
relax 22 3 70
relax 10 3 71
relax 17 0 4
relax 16 0 4
relax 18 0 32
relax 9 0 23
=
547

; S15-S16 S19-S22; Q18
phrygian 4 0 1
cantus F3 C5 B4
r:4 G3:8 C4:4 B3:8
F3:8 C5:8 B4:8
relax 12 0 31
relax 24 0 10
relax 10 3 66
relax 15 3 86
=
200

; S4-S5 S11-S12 S15 S18 S22; Q18
ionian 2 1 0
cantus F3 G4 A3
F3:8 G4:8 A3:8
B4:4 Bb4:4 G4:4 A4:4 A4:8
range 1 D3 E5
relax 4 0 19
relax 12 0 36
relax 22 3 89
relax 11 3 60
relax 14 0 38
relax 24 0 25
relax 15 3 44
=
365

; S9 S15 S19-S23
ionian 4 1 0
cantus B3 B3 G3
B3:8 B3:8 G3:8
r:4 A3:8 B3:4 D5:8
relax 20 0 32
relax 10 0 20
relax 21 3 71
relax 24 0 15
relax 12 0 12
relax 22 3 68
relax 19 0 19
relax 23 3 79
relax 13 3 84
relax 9 0 16
=
447

; S5 S15 S18; Q16
ionian 2 0 1
cantus C4 B3 C4
B3:4 B3:4 B3:4 B3:4 C4:8
C4:8 B3:8 C4:8
range 0 B2 A4
relax 5 0 20
relax 16 3 89
=
170

; S5-S6 S8-S9 S15 S22; Q20
phrygian 3 0 1
cantus E4 F4 B3
C4:2 C4:2 B3:2 C4:2 C4:2 F4:2 E4:2 C4:2 C3:8
E4:8 F4:8 B3:8
relax 8 0 25
relax 6 0 9
relax 24 0 17
relax 12 0 18
relax 15 0 33
relax 14 3 47
=
255

; S6-S7 S25-S26
dorian 5 1 0
cantus E3 E3 C3
E3:8 E3:8 C3:8
G3:2 F3:2 E3:2 A3:1 D4:3 C#4:1 D3:1 C#4:4 D4:8
range 1 D3 D5
relax 25 0 25
relax 6 0 39
relax 14 3 89
relax 24 0 3
relax 15 3 60
relax 10 0 2
relax 19 3 90
relax 13 0 5
=
514

; S18 S22
mixolydian 2 1 0
cantus A3 A3 C4
A3:8 A3:8 C4:8
G3:4 G3:4 A3:4 Bb3:4 C4:8
range 1 E3 F5
relax 18 0 1
relax 17 3 85
relax 5 0 2
relax 24 0 31
relax 10 3 43
relax 15 0 5
=
221

; S22
ionian 1 1 0
cantus C4 D4 C4
C4:8 D4:8 C4:8
E4:8 F4:8 E4:8
relax 12 0 28
=
32

; S18; Q16 Q20
ionian 3 1 0
cantus E4 B3 C4
E4:8 B3:8 C4:8
B3:2 B3:2 C4:2 B3:2 B3:2 B3:2 C4:2 B3:2 C4:8
range 1 D3 F5
relax 14 0 38
relax 12 0 18
relax 10 0 37
relax 11 0 6
relax 16 0 10
relax 23 0 13
relax 17 3 61
relax 15 3 76
=
502

; S8; Q15
lydian 4 1 0
cantus F3 G3 G3 F3
F3:8 G3:8 G3:8 F3:8
r:4 F4:4 B3:4 F4:8 E4:4 F4:8
range 1 E3 F5
relax 4 0 29
relax 19 3 73
=
143

;
lydian 1 0 1
cantus F4 G4 F4
A3:8 E3:8 F3:8
F4:8 G4:8 F4:8
range 0 B2 G4
relax 12 0 31
=
34

; S18 S25
dorian 5 0 1
cantus D4 E4 D4
F3:2 E4:2 B4:2 F4:1 E4:5 C4:4 D4:8
D4:8 E4:8 D4:8
relax 11 3 52
relax 7 0 29
relax 18 3 55
relax 10 0 8
relax 22 0 32
relax 4 0 40
relax 15 0 8
=
312

; S1-S2
dorian 3 0 1
cantus D4 B4 B3
r:2 Bb2:2 C3:2 C3:2 G#2:2 C3:2 C#3:2 C#2:2 D2:8
D4:8 B4:8 B3:8
range 0 B2 A4
relax 5 0 26
relax 15 0 29
relax 26 0 5
relax 12 0 25
=
236

; Q15
ionian 4 0 1
cantus C4 D4 C4
r:4 D4:4 G3:4 A3:4 G3:8
C4:8 D4:8 C4:8
range 0 G2 B4
relax 12 0 22
relax 14 0 32
=
64

; S1-S2
mixolydian 3 1 0
cantus G3 A3 G3
G3:8 A3:8 G3:8
G4:2 A4:2 G#4:2 D5:2 F5:2 E5:2 E5:2 E5:2 D5:8
range 1 F3 E5
relax 4 0 17
relax 5 0 13
relax 6 0 1
relax 13 0 39
relax 22 0 16
relax 26 0 35
=
158

; S22
phrygian 1 0 1
cantus E4 F4 E4
F3:8 E3:8 G3:8
E4:8 F4:8 E4:8
range 0 B2 A4
relax 14 0 3
relax 22 0 19
=
27

;
mixolydian 3 0 1
cantus G4 F#4 A4
r:2 C4:2 C4:2 Bb3:2 A3:2 G3:2 F3:2 D3:2 E3:8
G4:8 F#4:8 A4:8
range 0 G2 A4
relax 12 0 17
relax 13 0 20
relax 24 0 15
=
61

; S18
dorian 5 1 0
cantus D3 E3 A3
D3:8 E3:8 A3:8
D4:2 B3:1 C4:1 D4:4 E4:6 G4:2 F4:8
range 1 E3 D5
relax 16 0 38
relax 17 0 33
=
77

;
lydian 5 0 1
cantus F4 C5 F4
A3:2 E3:2 F3:2 G3:6 A3:2 F3:2 G3:8
F4:8 C5:8 F4:8
range 0 A2 B4
relax 12 0 5
relax 13 0 26
relax 15 0 37
relax 20 0 11
relax 22 0 28
relax 24 0 14
=
125

;
aeolian 4 1 0
cantus A3 G#3 A3
A3:8 G#3:8 A3:8
r:4 G4:8 F#4:4 E4:8
range 1 F3 E5
relax 12 0 19
relax 15 0 40
relax 19 0 36
relax 20 0 17
relax 26 0 24
=
136

; Q16
ionian 5 0 1
cantus C4 D4 C4
A3:4 G3:4 A3:4 G3:4 A3:8
C4:8 D4:8 C4:8
relax 12 0 8
relax 13 0 9
relax 14 0 5
relax 22 0 3
=
37

;
lydian 5 1 0
cantus F3 B3 A3
F3:8 B3:8 A3:8
C4:2 G4:1 F4:1 E4:2 F4:4 G4:2 E4:4 F4:8
relax 15 0 23
relax 19 0 11
=
61

; Q16
dorian 4 1 0
cantus D3 D3 E3 D3
D3:8 D3:8 E3:8 D3:8
r:4 E4:4 F4:4 G4:4 F4:4 G4:4 F4:8
relax 12 0 6
relax 13 0 1
relax 14 0 2
relax 15 0 11
relax 22 0 39
=
85

; Q14
dorian 5 0 1
cantus D4 D4 A4 C5 B4 D4
F3:2 A3:2 B3:4 C4:4 F4:8 A4:6 G4:1 F4:1 G4:8 E4:2 F4:1 E4:1 F4:8
D4:8 D4:8 A4:8 C5:8 B4:8 D4:8
relax 12 0 2
relax 13 0 8
relax 14 0 17
relax 22 0 16
=
62";
