//! Reading the text of a head, piece by piece. Each function reads what stands at the front of the
//! bytes and gives the bytes behind it, or says how many bytes are left where no such text goes on.

ghost use Rattle.std.specs.Prelude.{◌≡◌, ◌+◌, ◌*◌, ◌-◌, ◌<◌, ◌≤◌, ◌==◌, ◌∷◌, [], ℕ, IfErr, IfOk, IfSome, IsTrue, None, Some, length, take, codes};
ghost use Rattle.fux_pitch.specs.declared.pitch.Pitch.{Pitch};
ghost use Rattle.fux_pitch.specs.Names.{name_of};
ghost use Rattle.fux_grid.specs.declared.cell.Cell.{Cell};
ghost use Rattle.fux_grid.specs.Exercises.{IsValid};
ghost use Rattle.fux_text.specs.Items.{item_name};
ghost use Rattle.cert_text.specs.declared.answers.Form.{Form as AForm};
ghost use Rattle.cert_text.specs.HeadRows.{BestRow, FeedRow, FormDigit, FormRow, HeadRow, IsCount, IsUpTo, ItemName, Items, KindsRow, NothingRow, NumberLine, PitchName, SingLine, SingLines, behind_text, can_stand, closing_text, digit_after, form_byte, free_from, is_count, is_letter, is_sign, none_rest, said_of, sing_bytes};
ghost use Rattle.cert_text.specs.Pieces.{Literal, OneByte, Reads, Stops};

use crate::answers::Form;
use fux_grid::{Cell, Exercise};
use fux_pitch::{Pitch, parse_pitch};

/// What a head says: its form, and its penalty and its lines, unless it says that there is no
/// setting; and the bytes behind it.
#[derive(Clone, Copy)]
pub struct Scan<'a> {
    pub form: Form,
    pub penalty: Option<u64>,
    pub lines: &'a [u8],
    pub rest: &'a [u8],
}

/// The next byte, and those behind it.
pub fn next(bytes: &[u8]) -> Option<(u8, &[u8])>
    ensures some { IfSome result (λ found. bytes.now ≡ found.0 ∷ found.1.now) }
    ensures none { result ≡ None → bytes.now ≡ [] }
{
    match bytes {
        [byte, rest @ ..] => Some((*byte, rest)),
        [] => None,
    }
}

/// Reads this text.
pub fn fixed<'a>(bytes: &'a [u8], text: &[u8]) -> Result<&'a [u8], usize>
    ensures ok { IfOk result (λ rest. Reads (Literal text.now) bytes.now tt rest.now) }
    ensures err { IfErr result (λ left. Stops (Literal text.now) bytes.now left) }
{
    for (i, byte) in text.iter().enumerate() {
        if i == bytes.len() {
            return Err(0);
        }
        if bytes[i] != *byte {
            return Err(bytes.len() - i);
        }
    }
    Ok(&bytes[text.len()..])
}

/// The number whose digits are those of another one, if there is one, and one more digit.
fn digit_after(number: Option<u64>, byte: u8) -> Option<u64>
    ensures { result ≡ digit_after number byte }
{
    if byte < b'0' || byte > b'9' {
        return None;
    }
    let digit = u64::from(byte - b'0');
    match number {
        None => Some(digit),
        Some(0) => None,
        Some(n) => {
            if n > (u64::MAX - digit) / 10 {
                None
            } else {
                Some(10 * n + digit)
            }
        }
    }
}

/// The number that a line feed ends.
fn ended(number: Option<u64>, byte: u8) -> Option<u64>
    ensures some { IfSome result (λ n. (number ≡ Some n) × (byte ≡ 10)) }
    ensures none { result ≡ None → byte ≡ 10 → number ≡ None }
{
    if byte == b'\n' { number } else { None }
}

/// Reads a number and a line feed.
pub fn number_line(bytes: &[u8]) -> Result<(u64, &[u8]), usize>
    ensures ok { IfOk result (λ found. Reads NumberLine bytes.now found.0 found.1.now) }
    ensures err { IfErr result (λ left. Stops NumberLine bytes.now left) }
{
    let mut number = None;
    for (i, byte) in bytes.iter().enumerate() {
        if let Some(n) = ended(number, *byte) {
            return Ok((n, &bytes[i + 1..]));
        }
        let Some(longer) = digit_after(number, *byte) else {
            return Err(bytes.len() - i);
        };
        number = Some(longer);
    }
    Err(0)
}

/// The pitch whose name is so many bytes at the front.
fn pitch_of(bytes: &[u8], len: usize) -> Option<Pitch>
    ensures some { IfSome result (λ p. (len ≤ length bytes.now)
        × (take len bytes.now ≡ name_of p)) }
    ensures none { result ≡ None → (p : Pitch) → len ≤ length bytes.now → take len bytes.now
        ≡ name_of p → ⊥ }
{
    if bytes.len() < len {
        return None;
    }
    parse_pitch(&bytes[..len])
}

/// Whether a byte is a letter of pitches.
fn is_letter(byte: u8) -> bool
    ensures { result ≡ is_letter byte }
{
    b'A' <= byte && byte <= b'G'
}

/// Whether a byte is a sign of pitches.
fn is_sign(byte: u8) -> bool
    ensures { result ≡ is_sign byte }
{
    byte == b'#' || byte == b'b'
}

/// How many bytes are left where bytes stop being the name of a pitch: a letter, or a letter and a
/// sign, begins one.
fn behind_name(bytes: &[u8]) -> usize
    requires two { (p : Pitch) → 2 ≤ length bytes.now → take 2 bytes.now ≡ name_of p → ⊥ }
    requires three { (p : Pitch) → 3 ≤ length bytes.now → take 3 bytes.now ≡ name_of p → ⊥ }
    ensures { Stops PitchName bytes.now result }
{
    let Some((letter, rest)) = next(bytes) else {
        return 0;
    };
    if !is_letter(letter) {
        return bytes.len();
    }
    let Some((sign, more)) = next(rest) else {
        return 0;
    };
    if is_sign(sign) {
        more.len()
    } else {
        rest.len()
    }
}

/// Reads the name of a pitch.
pub fn pitch(bytes: &[u8]) -> Result<(Pitch, &[u8]), usize>
    ensures ok { IfOk result (λ found. Reads PitchName bytes.now found.0 found.1.now) }
    ensures err { IfErr result (λ left. Stops PitchName bytes.now left) }
{
    if let Some(pitch) = pitch_of(bytes, 2) {
        return Ok((pitch, &bytes[2..]));
    }
    if let Some(pitch) = pitch_of(bytes, 3) {
        return Ok((pitch, &bytes[3..]));
    }
    Err(behind_name(bytes))
}

/// Whether a rest can stand behind so many columns and this cell.
fn may_rest(i: u8, before: Cell) -> bool
    ensures { result ≡ can_stand i before Cell.Rest }
{
    i % 8 == 0 || before.pitch().is_some()
}

/// The rest that can stand there.
fn rest(i: u8, before: Cell) -> Option<Cell>
    ensures some { IfSome result (λ c. IsTrue (can_stand i before c) × (item_name c ≡ codes "r")) }
    ensures none { result ≡ None → IsTrue (can_stand i before Cell.Rest) → ⊥ }
{
    if may_rest(i, before) {
        Some(Cell::Rest)
    } else {
        None
    }
}

/// The hold that can stand there.
fn hold(i: u8, before: Cell) -> Option<Cell>
    ensures some { IfSome result (λ c. IsTrue (can_stand i before c) × (item_name c ≡ codes "_")) }
    ensures none { result ≡ None → (p : Pitch) → IsTrue (can_stand i before (Cell.Hold p)) → ⊥ }
{
    if i % 8 != 0 {
        return None;
    }
    match before.pitch() {
        Some(pitch) => Some(Cell::Hold(pitch)),
        None => None,
    }
}

/// The rest or the hold that a byte calls, if it can stand there.
fn rest_or_hold(byte: u8, i: u8, before: Cell) -> Option<Cell>
    ensures some { IfSome result (λ c. IsTrue (can_stand i before c) × (item_name c ≡ byte ∷ [])) }
    ensures none { result ≡ None → (c : Cell) → IsTrue (can_stand i before c) → item_name c ≡ byte
        ∷ [] → ⊥ }
{
    if byte == b'r' {
        return rest(i, before);
    }
    if byte == b'_' {
        return hold(i, before);
    }
    None
}

/// Reads the name of a note that starts.
fn start(bytes: &[u8]) -> Result<(Cell, &[u8]), usize>
    ensures ok { IfOk result (λ found. (i : ℕ) → (before : Cell) → Reads (ItemName i before)
        bytes.now found.0 found.1.now) }
    ensures err { IfErr result (λ left. Stops PitchName bytes.now left) }
{
    match pitch(bytes) {
        Ok((pitch, rest)) => Ok((Cell::Start(pitch), rest)),
        Err(left) => Err(left),
    }
}

/// Reads what an item is called that stands behind so many columns and this cell.
fn name(bytes: &[u8], i: u8, before: Cell) -> Result<(Cell, &[u8]), usize>
    ensures ok { IfOk result (λ found. Reads (ItemName i before) bytes.now found.0 found.1.now) }
    ensures err { IfErr result (λ left. Stops (ItemName i before) bytes.now left) }
{
    let Some((byte, rest)) = next(bytes) else {
        return start(bytes);
    };
    match rest_or_hold(byte, i, before) {
        Some(cell) => Ok((cell, rest)),
        None => start(bytes),
    }
}

/// Whether a byte is the digit of the length of an item behind so many columns.
fn is_count(byte: u8, i: u8) -> bool
    ensures { result ≡ is_count i byte }
{
    b'1' <= byte && byte <= b'8' - i % 8
}

/// Reads the digit of the length of an item behind so many columns.
fn count(bytes: &[u8], i: u8) -> Result<(u8, &[u8]), usize>
    ensures ok { IfOk result (λ found. Reads (OneByte (IsCount i)) bytes.now found.0 found.1.now) }
    ensures err { IfErr result (λ left. Stops (OneByte (IsCount i)) bytes.now left) }
{
    let Some((digit, rest)) = next(bytes) else {
        return Err(0);
    };
    if !is_count(digit, i) {
        return Err(bytes.len());
    }
    Ok((digit, rest))
}

/// What stands behind an item, behind so many columns of a line of so many bars.
fn behind_item(bars: u8, i: u8) -> &'static [u8]
    requires { bars ≤ 24 }
    ensures { result.now ≡ behind_text bars i }
{
    if i == 8 * bars {
        b"\n"
    } else if i % 8 == 0 {
        b" | "
    } else {
        b" "
    }
}

/// Reads items behind so many columns and this cell, through the end of a line of so many bars;
/// there are at most so many.
fn items(bars: u8, most: u8, i: u8, before: Cell, bytes: &[u8]) -> Result<&[u8], usize>
    requires few { bars ≤ 24 }
    requires here { i < 8 * bars }
    requires enough { 8 * bars ≤ i + most }
    ensures ok { IfOk result (λ rest. Reads (Items bars most i before) bytes.now tt rest.now) }
    ensures err { IfErr result (λ left. Stops (Items bars most i before) bytes.now left) }
{
    let (cell, colon) = name(bytes, i, before)?;
    let digits = fixed(colon, b":")?;
    let (digit, behind) = count(digits, i)?;
    let next = i + (digit - b'0');
    let rest = fixed(behind, behind_item(bars, next))?;
    if next == 8 * bars {
        return Ok(rest);
    }
    items(bars, most - 1, next, cell.held(), rest)
}

/// The beginning of a voice's `sing` line.
fn sing_bytes(v: u8) -> &'static [u8]
    ensures { result.now ≡ sing_bytes v }
{
    match v {
        0 => b"sing 0 ",
        1 => b"sing 1 ",
        2 => b"sing 2 ",
        _ => b"sing 3 ",
    }
}

/// Reads the line of a voice.
fn line<'a>(ex: &Exercise, v: u8, bytes: &'a [u8]) -> Result<&'a [u8], usize>
    requires { IsValid ex.now }
    ensures ok { IfOk result (λ rest. Reads (SingLine ex.now v) bytes.now tt rest.now) }
    ensures err { IfErr result (λ left. Stops (SingLine ex.now v) bytes.now left) }
{
    let rest = fixed(bytes, sing_bytes(v))?;
    items(ex.bars, 8 * ex.bars, 0, Cell::Rest, rest)
}

/// Reads the lines of the free voices from this one on.
fn lines<'a>(ex: &Exercise, v: u8, bytes: &'a [u8]) -> Result<&'a [u8], usize>
    requires { IsValid ex.now }
    ensures ok { IfOk result (λ rest. Reads (SingLines ex.now (free_from ex.now v)) bytes.now tt
        rest.now) }
    ensures err { IfErr result (λ left. Stops (SingLines ex.now (free_from ex.now v)) bytes.now
        left) }
{
    if v >= ex.voices {
        return Ok(bytes);
    }
    if v == ex.cantus_voice {
        return lines(ex, v + 1, bytes);
    }
    let rest = line(ex, v, bytes)?;
    lines(ex, v + 1, rest)
}

/// What stands between a head and what is behind it.
fn closing(form: Form) -> &'static [u8]
    ensures { result.now ≡ closing_text form }
{
    match form {
        Form::First => b"claims\n",
        Form::Second => b"potentials\n",
        Form::Third => b"",
    }
}

/// Reads what follows the `b` of `best`.
fn best<'a>(ex: &Exercise, form: Form, bytes: &'a [u8]) -> Result<Scan<'a>, usize>
    requires { IsValid ex.now }
    ensures ok { IfOk result (λ found. Reads (BestRow ex.now form) bytes.now (said_of found)
        found.rest.now) }
    ensures err { IfErr result (λ left. Stops (BestRow ex.now form) bytes.now left) }
{
    let digits = fixed(bytes, b"est ")?;
    let (penalty, sung) = number_line(digits)?;
    let behind = lines(ex, 0, sung)?;
    let rest = fixed(behind, closing(form))?;
    Ok(Scan {
        form,
        penalty: Some(penalty),
        lines: &sung[..sung.len() - behind.len()],
        rest,
    })
}

/// What follows the `n` of `none`.
fn none_rest(form: Form) -> &'static [u8]
    ensures { result.now ≡ none_rest form }
{
    match form {
        Form::First => b"one\nclaims\n",
        Form::Second => b"one\npotentials\n",
        Form::Third => b"one\n",
    }
}

/// Reads what follows the `n` of `none`.
fn nothing(form: Form, bytes: &[u8]) -> Result<Scan<'_>, usize>
    ensures ok { IfOk result (λ found. Reads (NothingRow form) bytes.now (said_of found)
        found.rest.now) }
    ensures err { IfErr result (λ left. Stops (NothingRow form) bytes.now left) }
{
    let rest = fixed(bytes, none_rest(form))?;
    Ok(Scan {
        form,
        penalty: None,
        lines: &[],
        rest,
    })
}

/// Reads the second line and those behind it.
fn kind<'a>(ex: &Exercise, form: Form, bytes: &'a [u8]) -> Result<Scan<'a>, usize>
    requires { IsValid ex.now }
    ensures ok { IfOk result (λ found. Reads (KindsRow ex.now form) bytes.now (said_of found)
        found.rest.now) }
    ensures err { IfErr result (λ left. Stops (KindsRow ex.now form) bytes.now left) }
{
    let Some((byte, rest)) = next(bytes) else {
        return Err(0);
    };
    if byte == b'b' {
        return best(ex, form, rest);
    }
    if byte == b'n' {
        return nothing(form, rest);
    }
    Err(bytes.len())
}

/// The form up to this one that has a digit.
fn form_of(last: Form, byte: u8) -> Option<Form>
    ensures some { IfSome result (λ form. IsUpTo last form × (byte ≡ form_byte form)) }
    ensures none { result ≡ None → (form : AForm) → IsUpTo last form → byte ≡ form_byte form → ⊥ }
{
    match last {
        Form::First => {
            if byte == b'1' {
                Some(Form::First)
            } else {
                None
            }
        }
        Form::Second => match byte {
            b'1' => Some(Form::First),
            b'2' => Some(Form::Second),
            _ => None,
        },
        Form::Third => match byte {
            b'1' => Some(Form::First),
            b'2' => Some(Form::Second),
            b'3' => Some(Form::Third),
            _ => None,
        },
    }
}

/// Reads the digit of a form up to this one.
fn form_digit(last: Form, bytes: &[u8]) -> Result<(Form, &[u8]), usize>
    ensures ok { IfOk result (λ found. Reads (FormDigit last) bytes.now found.0 found.1.now) }
    ensures err { IfErr result (λ left. Stops (FormDigit last) bytes.now left) }
{
    let Some((byte, rest)) = next(bytes) else {
        return Err(0);
    };
    match form_of(last, byte) {
        Some(form) => Ok((form, rest)),
        None => Err(bytes.len()),
    }
}

/// Reads what follows the digit of a form.
fn behind_form<'a>(ex: &Exercise, form: Form, bytes: &'a [u8]) -> Result<Scan<'a>, usize>
    requires { IsValid ex.now }
    ensures ok { IfOk result (λ found. Reads (FeedRow ex.now form) bytes.now (said_of found)
        found.rest.now) }
    ensures err { IfErr result (λ left. Stops (FeedRow ex.now form) bytes.now left) }
{
    let second = fixed(bytes, b"\n")?;
    kind(ex, form, second)
}

/// Reads the digit of a form up to this one, and what follows it.
fn numbered<'a>(ex: &Exercise, last: Form, bytes: &'a [u8]) -> Result<Scan<'a>, usize>
    requires { IsValid ex.now }
    ensures ok { IfOk result (λ found. Reads (FormRow ex.now last) bytes.now (said_of found)
        found.rest.now) }
    ensures err { IfErr result (λ left. Stops (FormRow ex.now last) bytes.now left) }
{
    let (form, feed) = form_digit(last, bytes)?;
    behind_form(ex, form, feed)
}

/// Reads a head of a form up to this one.
pub fn scan_head<'a>(ex: &Exercise, last: Form, bytes: &'a [u8]) -> Result<Scan<'a>, usize>
    requires { IsValid ex.now }
    ensures ok { IfOk result (λ found. Reads (HeadRow ex.now last) bytes.now (said_of found)
        found.rest.now) }
    ensures err { IfErr result (λ left. Stops (HeadRow ex.now last) bytes.now left) }
{
    let digit = fixed(bytes, b"fux-cert ")?;
    numbered(ex, last, digit)
}
