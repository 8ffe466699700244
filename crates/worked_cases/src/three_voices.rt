//! Settings in three voices, on which `settings` tries the judge.

/// Each setting with what is paid of it. The comment has the rules and tolls of which the rows
/// above lack a voice, two voices or a species.
pub const JUDGED: &str = "\
; S4-S7 S9-S10 S12-S15 S19-S22 S24-S25; Q2-Q13 Q17-Q19
aeolian 5 0 1
cantus C5 B3 A3
D3:2 C3:1 G3:1 F4:2 F4:4 E4:2 D4:2 E4:2 C4:8
C5:8 B3:8 A3:8
G3:8 C4:8 A3:8
range 0 G2 G4
relax 14 5 57
relax 13 3 44
relax 24 0 12
relax 20 5 51
relax 10 0 40
relax 19 5 54
relax 25 0 11
relax 12 0 31
relax 4 0 34
relax 22 0 25
relax 21 3 59
relax 15 5 84
=
1164

; S4-S7 S9-S10 S12-S17 S22 S24 S26; Q1-Q2 Q6-Q10 Q13 Q18-Q19
dorian 3 1 2
cantus C4 F4 B4
D4:8 Bb3:8 E4:8
r:2 E4:2 D4:2 Bb3:2 C#5:2 F4:2 G3:2 F3:2 F3:8
C4:8 F4:8 B4:8
range 0 G2 G4
relax 14 3 41
relax 15 6 63
relax 5 0 13
relax 17 5 63
=
400

; S4-S9 S11-S12 S14-S17 S19-S20 S23 S25; Q7 Q10 Q12 Q17-Q18
lydian 5 2 0
cantus A2 E3 F3
A2:8 E3:8 F3:8
F3:8 E3:8 F3:8
G4:2 B3:2 C5:2 C5:1 D4:3 F3:2 E4:4 F4:8
range 1 C3 D5
range 2 F3 F5
relax 19 0 40
relax 5 0 3
relax 11 0 19
relax 23 0 29
relax 12 0 2
relax 20 5 70
relax 16 6 86
relax 16 0 17
relax 15 6 44
relax 15 0 31
relax 14 5 44
relax 14 0 27
=
661

; S4 S6-S7 S9 S11 S13 S15-S16 S19-S22 S26
aeolian 4 0 2
cantus D5 G4 G3
r:4 A3:8 G#2:4 E2:8
D3:8 G4:8 B4:8
D5:8 G4:8 G3:8
range 0 E2 F4
relax 9 0 38
relax 19 3 68
relax 13 0 17
relax 11 0 18
relax 21 5 89
relax 24 0 37
relax 15 3 54
relax 22 0 9
relax 7 0 8
relax 20 3 55
relax 10 0 38
relax 4 0 36
relax 12 0 32
relax 6 0 2
=
656

; S4-S7 S9 S11 S15-S16 S18 S22; Q16
dorian 2 1 0
cantus D3 E3 D3
D3:8 E3:8 D3:8
E3:4 E3:4 E3:4 E3:4 D3:8
D4:8 F5:8 A5:8
range 2 F3 A5
relax 9 0 19
relax 7 0 26
relax 6 0 18
relax 4 0 37
relax 12 0 32
relax 22 0 14
relax 15 3 67
=
263

; S5 S11-S12 S18 S23; Q20
lydian 3 0 1
cantus F4 E4 F4
F3:2 F3:2 E3:2 F3:2 E3:2 F3:2 G3:2 E3:2 F3:8
F4:8 E4:8 F4:8
A5:8 E4:8 F4:8
relax 16 6 59
relax 16 0 9
relax 9 0 13
relax 23 3 79
relax 18 3 83
=
478

; S5 S8 S11 S15 S18-S20 S22-S23 S25-S26
dorian 5 2 0
cantus G3 D3 C4
G3:8 D3:8 C4:8
A4:8 C#4:8 E3:8
C4:2 D5:2 F3:2 G3:1 D3:3 D3:2 C#3:4 C4:8
range 1 B2 C5
relax 25 0 12
relax 20 6 84
relax 26 0 28
relax 8 0 20
relax 18 0 5
relax 9 0 30
relax 13 0 39
relax 24 0 8
relax 7 0 20
relax 4 0 20
relax 14 5 59
relax 10 3 52
relax 10 0 8
=
660

; S8 S11 S19-S21 S23 S25
phrygian 5 1 0
cantus A2 D3 E3
A2:8 D3:8 E3:8
C4:2 B3:1 G3:1 Bb3:2 E3:4 A3:1 D3:1 C3:4 D3:8
A4:8 D3:8 E3:8
relax 19 0 13
relax 15 0 15
relax 12 0 38
relax 23 6 86
relax 20 3 71
relax 11 5 56
relax 10 0 10
relax 13 0 11
relax 16 5 78
relax 21 3 71
relax 25 0 13
relax 14 3 49
=
797

; S19-S22 S26
dorian 4 2 1
cantus D4 E4 D4
G3:8 C#4:8 A3:8
D4:8 E4:8 D4:8
r:4 C5:8 D5:4 B4:8
relax 21 0 20
relax 24 0 29
relax 26 0 17
=
85

; S5 S18 S22
lydian 2 0 1
cantus A4 G4 F4
D3:4 C3:4 C3:4 D3:4 E3:8
A4:8 G4:8 F4:8
F4:8 C4:8 E4:8
range 0 E2 F4
range 2 G3 A5
relax 18 5 84
relax 5 0 35
relax 15 0 9
relax 14 0 8
relax 10 6 71
relax 24 0 24
=
405

; S8 S19 S21 S25-S26; Q20
aeolian 5 1 0
cantus A3 B3 A3
A3:8 B3:8 A3:8
A3:2 A3:2 A3:2 A3:4 G3:1 D4:1 G#3:4 A3:8
G4:8 G#4:8 E4:8
range 1 B2 D5
relax 15 0 2
relax 8 0 22
relax 4 0 35
relax 17 0 18
relax 22 0 27
relax 23 0 21
relax 10 0 18
relax 5 0 36
relax 19 6 86
relax 14 6 87
=
537

; S19-S20
ionian 4 1 0
cantus F3 D3 B2
F3:8 D3:8 B2:8
r:4 C4:8 B3:4 C4:8
B3:8 Bb3:8 Bb3:8
range 2 F3 A5
relax 19 3 49
relax 20 6 68
relax 14 6 70
relax 14 0 18
=
256

; S18 S22; Q20
ionian 3 2 1
cantus B4 D4 E3
C3:8 G3:8 A3:8
B4:8 D4:8 E3:8
E5:2 E5:2 G5:2 F5:2 D5:2 E5:2 E5:2 F5:2 E5:8
range 0 G2 G4
relax 18 6 84
relax 22 0 7
relax 5 0 31
relax 14 0 5
relax 15 6 47
=
302

; S22
ionian 1 2 0
cantus C3 D3 C3
C3:8 D3:8 C3:8
A3:8 G3:8 G3:8
C4:8 A3:8 B3:8
range 1 D3 C5
range 2 G3 A5
relax 14 0 21
=
80

; S18; Q16
phrygian 2 2 1
cantus E4 D4 E4
D3:8 E3:8 F3:8
E4:8 D4:8 E4:8
D4:4 D4:4 D4:4 D4:4 E4:8
relax 15 0 35
relax 24 0 26
relax 5 0 23
relax 16 0 23
relax 14 3 82
relax 13 0 36
=
544

; S8; Q14-Q15
lydian 4 2 1
cantus A4 G3 G4 A4
F3:8 Bb3:8 E3:8 F3:8
A4:8 G3:8 G4:8 A4:8
r:4 G3:4 E4:4 F5:8 E5:4 F5:8
range 0 G2 G4
relax 23 0 7
relax 15 5 65
relax 15 0 40
relax 10 0 9
relax 6 0 23
relax 14 5 83
=
316

; S1-S2
ionian 1 0 1
cantus A3 B3 C4
C#3:8 G2:8 B2:8
A3:8 B3:8 C4:8
C#5:8 G#3:8 C4:8
range 2 A3 G5
relax 26 0 13
relax 14 0 36
relax 12 0 4
=
186

; Q14-Q16
phrygian 4 0 1
cantus C4 A4 E4 B4
r:4 F3:4 G3:4 A3:4 G3:4 A3:4 E3:8
C4:8 A4:8 E4:8 B4:8
E4:8 F4:8 G4:8 G4:8
range 2 A3 F5
relax 10 6 71
relax 13 5 51
relax 14 5 85
relax 14 0 5
relax 12 0 21
relax 16 0 35
=
406

; S18
mixolydian 3 1 2
cantus G4 F#4 G4
F3:8 F#3:8 G3:8
r:2 C4:2 D4:2 E4:2 F#4:2 E4:2 E4:2 F#4:2 G4:8
G4:8 F#4:8 G4:8
range 0 E2 G4
range 1 C3 C5
relax 4 0 37
relax 14 0 32
relax 15 0 32
relax 16 0 6
relax 18 0 15
relax 26 0 6
=
284

;
lydian 1 1 0
cantus F3 G3 F3
F3:8 G3:8 F3:8
C4:8 E4:8 F4:8
G4:8 A4:8 B4:8
range 2 A3 F5
relax 13 0 24
relax 14 0 32
=
134

; S8 S18 S25
aeolian 5 0 2
cantus F4 B3 C5
C4:2 D4:1 D4:1 C4:2 A3:4 B3:1 F3:1 G#3:4 A3:8
C4:8 A3:8 C4:8
F4:8 B3:8 C5:8
relax 8 0 40
relax 20 0 4
relax 15 3 55
relax 15 0 10
relax 11 0 30
relax 14 5 49
relax 14 0 21
relax 5 0 28
relax 19 0 36
=
427

; S18
lydian 2 1 2
cantus F4 G4 F4
G3:8 E3:8 F3:8
r:4 F3:4 G3:4 E3:4 F3:8
F4:8 G4:8 F4:8
range 0 F2 E4
range 1 B2 C5
relax 10 0 10
relax 15 0 28
relax 16 0 26
relax 23 0 1
=
113

; S1-S2
aeolian 4 1 0
cantus G3 G#3 G3
G3:8 G#3:8 G3:8
r:4 E3:8 B2:4 C#4:8
B4:8 B4:8 C5:8
relax 10 0 40
relax 22 0 28
relax 12 0 18
relax 4 0 10
=
216

; Q15
lydian 4 1 0
cantus F3 G3 F3
F3:8 G3:8 F3:8
r:4 C4:4 G3:4 A3:4 D3:8
D5:8 B4:8 G4:8
range 1 C3 C5
range 2 G3 G5
relax 11 0 30
relax 12 0 37
relax 13 0 9
relax 14 0 15
relax 15 0 34
=
227

; S22
ionian 1 2 0
cantus C3 D3 C3
C3:8 D3:8 C3:8
B3:8 C4:8 A3:8
A4:8 D5:8 G5:8
relax 6 0 24
relax 17 0 25
relax 22 0 24
=
104

; S21
mixolydian 5 2 1
cantus G4 A4 G4
A3:8 F#4:8 G4:8
G4:8 A4:8 G4:8
F4:2 E4:2 F4:8 E4:4 G4:8
range 0 E2 G4
range 2 A3 A5
relax 10 0 27
relax 12 0 1
relax 14 0 20
=
248

;
dorian 5 1 2
cantus D4 E4 D4
E3:8 E3:8 D3:8
B3:4 D4:6 B3:1 C#4:1 C#4:4 D4:8
D4:8 E4:8 D4:8
range 0 F2 E4
range 1 D3 D5
relax 12 0 22
relax 14 0 15
relax 16 0 28
relax 26 0 6
=
90

; Q14
phrygian 1 0 1
cantus E4 C4 F3 F4 E4
G3:8 A3:8 E3:8 D3:8 E3:8
E4:8 C4:8 F3:8 F4:8 E4:8
E4:8 F4:8 C5:8 B4:8 C5:8
range 2 A3 F5
=
34

; Q16
dorian 3 2 0
cantus D3 A3 F3 B3 C#3 D3
D3:8 A3:8 F3:8 B3:8 C#3:8 D3:8
Bb3:8 A3:8 C4:8 D4:8 C#4:8 D4:8
r:2 G4:2 A4:2 G4:2 D5:2 E5:2 F5:2 G5:2 A5:2 F5:2 E5:2 F5:2 F5:2 G5:2 F5:2 G5:2 F5:2 G5:2 F5:2 G5:2 G5:8
range 1 C3 C5
range 2 G3 A5
relax 5 0 18
relax 11 0 12
relax 12 0 34
=
191

; Q16
mixolydian 5 2 1
cantus G4 F4 F4 B4 F4 F#4 G4
G3:8 E3:8 D3:8 C3:8 D3:8 E3:8 D3:8
G4:8 F4:8 F4:8 B4:8 F4:8 F#4:8 G4:8
E4:4 D4:4 E4:4 D4:6 G4:1 G4:1 F4:4 F4:2 C5:1 Bb4:1 E5:6 F5:1 D5:1 D5:2 E5:2 F#5:2 G5:1 F5:1 C5:2 G4:2 F#4:8
range 2 F3 A5
relax 5 0 38
relax 13 0 39
relax 18 0 5
relax 24 0 24
=
272";
