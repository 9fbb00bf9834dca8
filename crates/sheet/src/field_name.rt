// Whether a name is one that a bit may have: a-z or `_`, then ASCII letters, digits and `_`. Its bytes are judged by a table of marks.
ghost use Rattle.std.specs.Prelude.{◌≡◌, ◌+◌, ◌≤◌, length};
ghost use Rattle.rules.specs.Context.{valid_field_name};
ghost use Rattle.sheet.specs.Mark.{HasMarks, starts_by, continues_by, continues_at, continue_by, valid_by};
ghost use Rattle.sheet.specs.Window.{passes};

// The mark of each byte, a number of the table and no enum, as it is read by its bits: 3 for one that may start a name and go on in it, 1 for one that may only go on, 0 for the rest.
const NAME_MARKS: [u8; 256] = [
    0, 0, 0, 0, 0, 0, 0, 0, 0, 0, 0, 0, 0, 0, 0, 0, 0, 0, 0, 0, 0, 0, 0, 0, 0, 0, 0, 0, 0, 0, 0, 0,
    0, 0, 0, 0, 0, 0, 0, 0, 0, 0, 0, 0, 0, 0, 0, 0, 1, // 0
    1, // 1
    1, // 2
    1, // 3
    1, // 4
    1, // 5
    1, // 6
    1, // 7
    1, // 8
    1, // 9
    0, 0, 0, 0, 0, 0, 0, 1, // A
    1, // B
    1, // C
    1, // D
    1, // E
    1, // F
    1, // G
    1, // H
    1, // I
    1, // J
    1, // K
    1, // L
    1, // M
    1, // N
    1, // O
    1, // P
    1, // Q
    1, // R
    1, // S
    1, // T
    1, // U
    1, // V
    1, // W
    1, // X
    1, // Y
    1, // Z
    0, 0, 0, 0, 3, // _
    0, 3, // a
    3, // b
    3, // c
    3, // d
    3, // e
    3, // f
    3, // g
    3, // h
    3, // i
    3, // j
    3, // k
    3, // l
    3, // m
    3, // n
    3, // o
    3, // p
    3, // q
    3, // r
    3, // s
    3, // t
    3, // u
    3, // v
    3, // w
    3, // x
    3, // y
    3, // z
    0, 0, 0, 0, 0, 0, 0, 0, 0, 0, 0, 0, 0, 0, 0, 0, 0, 0, 0, 0, 0, 0, 0, 0, 0, 0, 0, 0, 0, 0, 0, 0,
    0, 0, 0, 0, 0, 0, 0, 0, 0, 0, 0, 0, 0, 0, 0, 0, 0, 0, 0, 0, 0, 0, 0, 0, 0, 0, 0, 0, 0, 0, 0, 0,
    0, 0, 0, 0, 0, 0, 0, 0, 0, 0, 0, 0, 0, 0, 0, 0, 0, 0, 0, 0, 0, 0, 0, 0, 0, 0, 0, 0, 0, 0, 0, 0,
    0, 0, 0, 0, 0, 0, 0, 0, 0, 0, 0, 0, 0, 0, 0, 0, 0, 0, 0, 0, 0, 0, 0, 0, 0, 0, 0, 0, 0, 0, 0, 0,
    0, 0, 0, 0, 0,
];

// The mark of a byte that may start a name.
const STARTS: u8 = 3;

// The table of marks. Whoever judges many names makes it once, and lends it. It stays an array: the functions below promise what any 256 numbers say, and a
// type of its own would hold any 256 numbers too, and be no plainer, or ask their callers for the right ones.
pub fn name_marks() -> [u8; 256]
    ensures { HasMarks result }
{
    NAME_MARKS
}

// Whether the byte may start a name, by the table.
#[tactic(auto, unfolding(crate::specs::Mark::starts_by))]
pub fn starts_by(marks: &[u8; 256], b: u8) -> bool
    ensures { result ≡ starts_by marks.now b }
{
    marks[usize::from(b)] == STARTS
}

// Whether the byte may go on in a name, by the table.
#[tactic(auto, unfolding(crate::specs::Mark::continues_by))]
fn continues_by(marks: &[u8; 256], b: u8) -> bool
    ensures { result ≡ continues_by marks.now b }
{
    marks[usize::from(b)] % 2 == 1
}

// Whether each of the four bytes from `at` on may go on in a name, by the table.
#[tactic(auto, unfolding(crate::specs::Window::passes))]
fn four_continue(marks: &[u8; 256], text: &[u8], at: usize) -> bool
    requires { at + 4 ≤ length text.now }
    ensures { result ≡ passes (continues_at marks.now text.now) at 4 }
{
    continues_by(marks, text[at])
        & continues_by(marks, text[at + 1])
        & continues_by(marks, text[at + 2])
        & continues_by(marks, text[at + 3])
}

// Whether each of the eight bytes from `at` on may: eight are two fours.
#[tactic(auto, using(crate::proofs::Marks::marks))]
fn eight_continue(marks: &[u8; 256], text: &[u8], at: usize) -> bool
    requires { at + 8 ≤ length text.now }
    ensures { result ≡ passes (continues_at marks.now text.now) at 8 }
{
    four_continue(marks, text, at) & four_continue(marks, text, at + 4)
}

// Whether each byte of the text may.
#[tactic(auto, unfolding(crate::specs::Mark::continue_by))]
fn each_continues(marks: &[u8; 256], text: &[u8]) -> bool
    ensures { result ≡ continue_by marks.now text.now }
{
    text.iter().all(|b| continues_by(marks, *b))
}

// Whether each byte of the text may go on in a name, by the table. A text of 4 to 16 bytes is read from both ends, without a loop.
pub fn continue_by(marks: &[u8; 256], text: &[u8]) -> bool
    ensures { result ≡ continue_by marks.now text.now }
{
    let len = text.len();
    if len < 4 {
        return each_continues(marks, text);
    }
    if len <= 8 {
        return four_continue(marks, text, 0) & four_continue(marks, text, len - 4);
    }
    if len <= 16 {
        return eight_continue(marks, text, 0) & eight_continue(marks, text, len - 8);
    }
    each_continues(marks, text)
}
