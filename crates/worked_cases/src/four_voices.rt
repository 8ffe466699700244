//! Settings in four voices, on which `settings` tries the judge.

/// Each setting with what is paid of it. The comment has the rules and tolls of which the rows
/// above lack a voice, two voices or a species.
pub const JUDGED: &str = "\
; S4-S10 S12-S17 S19-S22 S24-S25; Q2-Q4 Q6-Q13 Q17-Q19
lydian 5 0 2
cantus B4 G4 F4
C2:2 C2:1 G2:1 B3:2 A3:4 G3:1 F3:1 D4:2 D4:2 B3:8
A3:8 D4:8 B3:8
B4:8 G4:8 F4:8
B4:8 G3:8 E3:8
range 0 C2 D4
range 3 E3 E5
relax 12 0 12
relax 19 0 2
relax 20 0 15
relax 10 0 24
relax 14 0 40
relax 15 9 42
relax 8 0 16
relax 13 0 18
relax 7 0 16
relax 9 0 39
relax 25 0 31
relax 21 3 57
relax 6 0 36
relax 16 0 8
=
1128

; S4-S5 S7-S8 S10-S16 S18 S22 S24; Q1-Q2 Q6-Q10 Q12-Q13 Q17 Q19
lydian 3 2 0
cantus F3 G3 A3
F3:8 G3:8 A3:8
G3:8 G3:8 A2:8
r:2 E3:2 F3:2 B2:2 G3:2 G3:2 B3:2 B3:2 A3:8
F4:8 G3:8 D4:8
range 1 F2 F4
range 2 B2 D5
relax 15 5 81
relax 10 6 42
relax 18 5 79
relax 4 0 32
relax 22 0 31
relax 24 0 21
relax 13 0 30
relax 11 3 74
relax 11 0 22
relax 7 0 35
relax 14 3 63
=
905

; S4-S17 S19-S21 S23 S25-S26; Q2 Q5 Q17-Q18
dorian 5 1 0
cantus B3 C#3 D3
B3:8 C#3:8 D3:8
G2:2 G2:1 E3:1 D4:2 D3:6 G2:2 C#3:1 Bb2:1 A2:8
D3:8 C#3:8 F3:8
D4:8 C#4:8 D4:8
range 1 G2 A4
range 3 G3 E5
relax 20 0 32
relax 15 0 6
relax 5 0 38
relax 13 3 84
relax 10 5 48
relax 19 0 30
relax 23 0 12
relax 26 0 32
relax 12 0 31
relax 7 0 14
relax 9 0 12
relax 6 0 9
relax 17 0 2
=
753

; S4 S10 S12-S16 S19-S22 S26; Q7 Q18
aeolian 4 0 1
cantus G4 G3 D3
r:4 F3:8 G#3:4 G3:8
G4:8 G3:8 D3:8
C4:8 D4:8 F4:8
E4:8 E4:8 D4:8
range 0 E2 C4
range 2 C3 C5
relax 10 6 84
relax 15 3 71
relax 13 5 63
relax 20 3 87
relax 19 3 82
relax 14 3 86
relax 22 0 19
relax 21 0 14
relax 4 0 19
=
636

; S5-S7 S9-S11 S13 S15-S16 S19-S21 S25; Q20
ionian 5 3 2
cantus A3 B3 C4
E4:8 B2:8 C3:8
G2:8 B3:8 C4:8
A3:8 B3:8 C4:8
A4:2 A4:2 B3:2 A4:1 Bb4:3 A4:1 F4:1 A4:2 E5:2 F4:8
range 0 E2 E4
range 1 F2 F4
range 3 G3 E5
relax 19 9 90
relax 19 0 6
relax 16 0 23
relax 15 0 13
relax 20 0 6
relax 10 3 41
relax 25 0 3
relax 14 10 49
relax 4 0 28
=
692

; S5-S9 S11 S14-S16 S19-S20 S22-S23 S25-S26
mixolydian 5 2 1
cantus G3 F#3 G4
D2:8 F3:8 Bb3:8
G3:8 F#3:8 G4:8
D3:2 F3:2 G4:2 G4:1 E4:5 F#4:2 C4:1 C5:1 F4:8
G3:8 F#3:8 D5:8
range 0 C2 E4
range 2 B2 D5
range 3 F3 E5
relax 23 6 48
relax 22 0 1
relax 15 0 24
relax 19 0 31
relax 8 0 31
relax 20 0 38
relax 9 0 18
relax 13 0 3
relax 12 0 36
relax 5 0 22
relax 24 0 40
=
695

; S5-S6 S9 S11 S15 S18 S22-S23; Q20
phrygian 3 0 3
cantus G4 E4 E5
C4:2 B3:2 A3:2 A3:2 A3:2 A3:2 D4:2 C4:2 A3:8
G4:8 D3:8 A2:8
F3:8 E4:8 B2:8
G4:8 E4:8 E5:8
range 1 A2 G4
range 2 B2 C5
relax 18 0 8
relax 15 5 59
relax 5 0 30
relax 14 6 77
relax 14 0 13
relax 4 0 17
relax 24 0 24
relax 12 0 38
=
631

; S5-S6 S11 S15 S18 S22
lydian 2 3 1
cantus B2 G3 C3
D3:8 G3:8 C3:8
B2:8 G3:8 C3:8
F3:8 A4:8 C5:8
C4:4 C4:4 D4:4 B3:4 G4:8
range 0 C2 C4
range 3 F3 F5
relax 5 0 30
relax 18 9 57
relax 16 0 3
relax 9 0 2
relax 6 0 25
relax 22 0 24
relax 15 10 88
relax 4 0 18
relax 17 0 21
relax 10 0 39
=
501

; S5 S8 S15 S18-S20 S25
phrygian 5 1 3
cantus E4 A3 F4
D3:8 E3:8 C4:8
A3:2 A3:1 F3:1 B3:6 D3:2 E3:2 D3:2 G4:8
A3:8 B3:8 A4:8
E4:8 A3:8 F4:8
range 0 E2 E4
range 1 G2 A4
range 2 C3 D5
relax 25 0 28
relax 22 0 4
relax 8 0 40
relax 9 0 17
relax 16 0 8
relax 10 0 18
relax 14 6 57
relax 11 0 3
relax 12 0 24
relax 18 3 62
=
463

; S15 S19-S23
lydian 4 3 0
cantus E3 E3 G3
E3:8 E3:8 G3:8
A4:8 D4:8 G4:8
F4:8 A3:8 D4:8
r:4 F3:8 E3:4 E3:8
relax 12 0 26
relax 24 0 19
relax 10 12 58
relax 13 0 5
=
383

; S5 S15 S18 S22-S23; Q16
ionian 2 2 1
cantus C3 B2 G2
E2:8 F2:8 E2:8
C3:8 B2:8 G2:8
C5:4 B4:4 C5:4 B4:4 B4:8
A4:8 F4:8 E4:8
range 0 D2 D4
range 2 D3 C5
relax 17 0 22
relax 12 0 24
relax 24 0 36
relax 18 12 53
relax 13 0 10
relax 14 6 48
=
284

; S11 S18; Q20
ionian 3 1 2
cantus F4 C4 E4
C3:8 E4:8 F3:8
D4:2 C4:2 G3:2 C4:2 A3:2 C4:2 C4:2 B3:2 C4:8
F4:8 C4:8 E4:8
G5:8 E4:8 G4:8
relax 18 10 43
relax 24 0 25
relax 5 0 9
relax 13 9 42
relax 13 0 17
relax 4 0 9
=
242

; S19 S21 S23 S26
dorian 4 2 3
cantus C4 E4 D4
F2:8 C#4:8 G3:8
F3:8 G3:8 G3:8
r:4 D4:8 C#4:4 D4:8
C4:8 E4:8 D4:8
range 0 E2 D4
range 2 B2 D5
relax 26 0 17
relax 12 0 32
relax 14 0 5
relax 10 0 26
relax 9 0 9
relax 24 0 5
relax 4 0 25
relax 19 5 67
=
298

; S8 S18-S19 S21 S25
lydian 5 0 3
cantus F4 G4 F4
A2:2 F2:1 B2:1 F2:6 A2:1 G2:1 E2:4 F2:8
E3:8 C4:8 E4:8
E4:8 E4:8 F4:8
F4:8 G4:8 F4:8
range 0 E2 E4
range 1 F2 F4
range 2 D3 D5
relax 19 9 41
relax 21 0 2
relax 23 0 13
relax 4 0 21
relax 7 0 30
=
185

; S19-S21 S26
aeolian 4 2 0
cantus B3 A3 A3
B3:8 A3:8 A3:8
A3:8 G#3:8 A3:8
r:4 B3:8 G#3:4 A3:8
F4:8 G#4:8 G#4:8
range 1 G2 F4
range 2 D3 C5
range 3 F3 F5
relax 10 0 6
relax 12 0 29
relax 14 0 37
relax 15 0 40
relax 16 0 27
relax 21 0 6
relax 4 0 32
relax 26 0 25
=
528

; S22 S26
dorian 1 1 3
cantus D4 E4 D4
Bb3:8 A3:8 B3:8
Bb3:8 C#4:8 F4:8
B3:8 B3:8 F4:8
D4:8 E4:8 D4:8
range 0 C2 C4
relax 10 0 21
relax 14 0 9
relax 22 0 10
relax 24 0 13
=
168

; S19-S21
mixolydian 4 1 2
cantus G4 F#4 G4
E3:8 G3:8 A3:8
r:4 A3:8 B3:4 D4:8
G4:8 F#4:8 G4:8
G4:8 C5:8 B4:8
range 0 D2 E4
relax 14 0 33
relax 21 0 6
=
193

; S18
aeolian 2 0 3
cantus B4 F4 A4
D3:4 C3:4 F3:4 G#3:4 A3:8
F3:8 F#3:8 F#3:8
A3:8 C4:8 A3:8
B4:8 F4:8 A4:8
range 0 C2 D4
relax 12 0 40
relax 13 0 28
relax 17 0 17
relax 26 0 27
relax 14 0 25
relax 15 0 37
relax 4 0 21
=
381

; S8 S18-S20 S25
phrygian 5 3 0
cantus D3 F3 G3
D3:8 F3:8 G3:8
D4:8 D4:8 D4:8
D3:8 F3:8 G3:8
G4:6 C4:6 Bb3:2 E4:1 A3:1 D4:8
range 1 F2 G4
relax 4 0 6
relax 11 5 65
relax 24 0 13
relax 18 12 62
relax 10 0 3
relax 16 0 1
=
231

; S18-S20 S25; Q20
lydian 5 2 0
cantus E3 G3 E3
E3:8 G3:8 E3:8
G4:8 F4:8 E4:8
E3:2 E3:2 G3:2 E3:1 E3:3 D3:2 E3:2 G3:2 F3:8
G4:8 E5:8 F5:8
range 1 A2 A4
range 3 G3 G5
relax 5 0 36
relax 15 0 32
relax 25 0 27
relax 13 0 36
relax 7 0 36
=
338

; S18; Q16
ionian 2 1 2
cantus E4 D4 C4
F3:8 E3:8 D3:8
D3:4 B2:4 D3:4 B2:4 C3:8
E4:8 D4:8 C4:8
E4:8 D4:8 C4:8
range 1 G2 G4
range 3 F3 E5
relax 14 5 85
relax 12 0 29
relax 11 12 59
relax 18 6 85
=
528

; S8 S18; Q14
aeolian 3 3 0
cantus A3 E3 G#3 A3
A3:8 E3:8 G#3:8 A3:8
F4:8 D3:8 B2:8 A2:8
C4:8 G4:8 B3:8 C4:8
F4:2 D4:2 A4:2 A4:2 A4:2 G4:2 F4:2 B4:2 F#4:2 E3:2 D4:2 G#3:2 A3:8
range 1 G2 F4
range 2 C3 D5
relax 8 0 20
relax 15 0 40
relax 23 0 34
relax 17 9 45
relax 6 0 12
relax 10 12 62
relax 16 0 1
relax 9 0 38
relax 26 0 35
relax 14 3 68
relax 18 0 38
=
917

; S1-S2
mixolydian 5 0 2
cantus G4 F#4 G4
B1:2 B1:2 C2:2 F2:1 C3:5 B2:2 F3:2 G#3:8
D#3:8 F2:8 F2:8
G4:8 F#4:8 G4:8
F#5:8 F#4:8 G4:8
range 0 E2 C4
range 3 G3 F5
relax 23 0 18
relax 11 0 4
relax 4 0 4
relax 13 5 59
relax 12 0 7
relax 15 0 15
relax 26 0 24
relax 7 0 6
relax 10 0 14
relax 21 0 22
=
480

; S19-S21
dorian 4 0 2
cantus D4 E4 D4
r:4 C3:8 B2:4 D3:8
A3:8 B3:8 C#4:8
D4:8 E4:8 D4:8
G3:8 G3:8 G3:8
range 0 E2 D4
relax 10 0 19
relax 12 0 3
relax 14 0 36
=
322

; S22; Q14
phrygian 1 2 1
cantus C3 B3 F3 E3
E3:8 G3:8 A3:8 G3:8
C3:8 B3:8 F3:8 E3:8
A3:8 G4:8 D4:8 C4:8
C4:8 E4:8 F4:8 E4:8
range 0 E2 E4
range 2 B2 B4
relax 10 3 64
relax 10 0 35
relax 4 0 28
relax 13 9 52
relax 13 0 27
=
430

;
aeolian 1 0 2
cantus A3 G#3 A3
D3:8 G#2:8 A2:8
C3:8 G#2:8 A2:8
A3:8 G#3:8 A3:8
D5:8 E5:8 C5:8
range 0 D2 C4
range 1 F2 G4
relax 4 0 13
relax 16 0 18
=
137

; S19-S21
lydian 4 3 2
cantus E4 G4 F4
D3:8 B2:8 F3:8
G3:8 D4:8 A3:8
E4:8 G4:8 F4:8
r:4 F5:8 E5:4 F5:8
range 0 C2 E4
range 1 F2 G4
relax 14 0 22
relax 20 9 56
relax 21 9 55
relax 19 9 85
=
260

; S19-S20; Q15
ionian 4 1 2
cantus C4 A3 D4 C4
A3:8 B3:8 A3:8 D3:8
r:4 G3:8 E3:4 F3:4 B3:4 F3:8
C4:8 A3:8 D4:8 C4:8
D4:8 C4:8 D4:8 F4:8
range 3 F3 G5
relax 4 0 35
relax 12 0 6
=
137

; Q15-Q16
mixolydian 4 3 2
cantus G4 G4 C4 G4
A2:8 G2:8 C3:8 D3:8
G3:8 A3:8 F#3:8 G3:8
G4:8 G4:8 C4:8 G4:8
r:4 G4:4 G4:4 A4:4 G4:4 A4:4 D5:8
range 0 E2 D4
relax 11 0 35
relax 13 0 31
relax 14 0 14
=
303

; S20; Q14-Q15
mixolydian 4 2 0
cantus D3 G3 F3 E3
D3:8 G3:8 F3:8 E3:8
A3:8 D3:8 C3:8 E3:8
r:4 G4:8 F4:4 E4:4 D4:4 G4:8
C5:8 F4:8 E4:8 G4:8
range 1 F2 F4
range 2 C3 D5
relax 13 0 27
relax 19 0 4
relax 16 0 20
relax 22 0 40
relax 10 0 8
relax 15 0 24
relax 14 0 9
=
364

; S20-S21; Q15
mixolydian 4 0 1
cantus F3 D4 D3 F3
r:4 G3:8 B3:4 G3:4 A3:4 E3:8
F3:8 D4:8 D3:8 F3:8
G3:8 F3:8 G3:8 B3:8
G4:8 F4:8 E4:8 F#4:8
relax 14 0 5
relax 12 0 21
relax 22 0 9
relax 13 0 37
relax 20 9 56
=
288

;
dorian 5 1 2
cantus D4 E3 E4
D3:8 E3:8 F3:8
D4:2 Bb3:1 E3:1 D3:8 C#3:4 D3:8
D4:8 E3:8 E4:8
F4:8 E4:8 C#4:8
range 1 G2 F4
relax 11 0 15
relax 12 0 7
relax 15 0 33
relax 21 0 31
relax 24 0 16
=
204

; S1-S2
phrygian 3 2 0
cantus D3 E3 C3
D3:8 E3:8 C3:8
G3:8 B2:8 B2:8
r:2 F#3:2 G3:2 B3:2 A3:2 G#3:2 F4:2 C5:2 E5:8
D4:8 C4:8 G3:8
range 2 C3 B4
range 3 F3 F5
relax 10 0 10
relax 17 0 7
relax 6 0 14
relax 26 0 26
relax 7 0 17
relax 14 0 38
relax 24 0 40
relax 15 0 8
=
519

; Q16
phrygian 5 0 1
cantus E3 D3 E3
D3:6 C3:2 D3:6 C3:2 B2:8
E3:8 D3:8 E3:8
B3:8 C4:8 A4:8
F4:8 B4:8 C5:8
range 0 D2 C4
range 2 C3 C5
range 3 E3 E5
relax 4 0 19
relax 11 0 17
relax 13 0 35
relax 23 0 12
=
208

;
ionian 1 3 1
cantus C3 D3 C3
G2:8 A2:8 B2:8
C3:8 D3:8 C3:8
B3:8 B3:8 G3:8
A4:8 B4:8 E5:8
range 0 E2 C4
range 3 E3 F5
relax 12 0 30
relax 14 0 6
relax 24 0 33
=
210

;
lydian 1 2 0
cantus F3 G3 F3
F3:8 G3:8 F3:8
A3:8 D4:8 G3:8
D4:8 E4:8 F4:8
B3:8 C4:8 E4:8
range 3 F3 F5
=
38

; S18
lydian 5 2 3
cantus F4 G4 F4
F2:8 E2:8 F2:8
F3:8 E3:8 F3:8
F4:4 E4:8 B4:2 C5:2 B4:8
F4:8 G4:8 F4:8
range 0 D2 E4
range 1 F2 G4
range 2 B2 D5
relax 16 0 28
relax 18 0 16
relax 23 0 13
=
154

;
mixolydian 3 3 1
cantus G3 A3 G3
D3:8 E3:8 A3:8
G3:8 A3:8 G3:8
C4:8 B3:8 G3:8
A4:2 Bb4:2 A4:2 A4:2 G4:2 A4:2 G4:2 E4:2 F4:8
range 3 F3 F5
relax 12 0 31
relax 13 0 19
relax 15 0 38
=
220

; voice 3 has a bar twice
phrygian 3 3 1
cantus E3 D3 F3 E3
D3:8 C3:8 D3:8 E3:8
E3:8 D3:8 F3:8 E3:8
G4:8 F4:8 A4:8 G4:8
D5:2 C5:2 B4:2 C5:2 D5:2 C5:2 B4:2 C5:2 D5:2 C5:2 D5:2 D5:2 E5:8
=
63";
