// A pass over the bytes of a text: its signs, or the place at which it does not fit.
#![tactic(auto)]

ghost use Rattle.std.specs.Prelude.{◌≡◌, ℕ, ◌+◌, ◌≤◌, ◌<◌, [], length, eqb, cond};
ghost use Rattle.grammar.specs.Machine.{operand, operator, digit, lost, step};
ghost use Rattle.text_scan.specs.Modes.{state_of, Moves, Found};

// What the machine awaits: an operand, an operator, a signal's digit, or the rest of a sign that has begun.
#[derive(Clone, Copy)]
enum Mode {
    Operand,
    Operator,
    Digit,
    Rue,
    Ue,
    E,
    Alse,
    Lse,
    Se,
    Greater,
    DashGreater,
}

// What the machine awaits after a byte, its depth of brackets, and the sign that the byte begins or ends.
#[derive(Clone, Copy)]
struct Step(Mode, usize, Option<u8>);

// ---- one byte: the step at it, or none where it cannot stand

// Where an operand may stand.
fn at_operand(deep: usize, b: u8) -> Option<Step>
    requires { deep < 4096 }
    ensures { Moves (step (operand deep) b) deep result }
{
    match b {
        b' ' => Some(Step(Mode::Operand, deep, None)),
        b'!' => Some(Step(Mode::Operand, deep, Some(6))),
        b'X' => Some(Step(Mode::Operand, deep, Some(7))),
        b'F' => Some(Step(Mode::Operand, deep, Some(8))),
        b'G' => Some(Step(Mode::Operand, deep, Some(9))),
        b'(' => Some(Step(Mode::Operand, deep + 1, Some(10))),
        b's' => Some(Step(Mode::Digit, deep, None)),
        b't' => Some(Step(Mode::Rue, deep, Some(4))),
        b'f' => Some(Step(Mode::Alse, deep, Some(5))),
        _ => None,
    }
}

// Where a binary sign or a closing bracket may stand.
fn at_operator(deep: usize, b: u8) -> Option<Step>
    requires { deep < 4096 }
    ensures { Moves (step (operator deep) b) deep result }
{
    match b {
        b' ' => Some(Step(Mode::Operator, deep, None)),
        b')' => {
            if deep == 0 {
                None
            } else {
                Some(Step(Mode::Operator, deep - 1, Some(11)))
            }
        }
        b'U' => Some(Step(Mode::Operand, deep, Some(12))),
        b'&' => Some(Step(Mode::Operand, deep, Some(13))),
        b'^' => Some(Step(Mode::Operand, deep, Some(14))),
        b'|' => Some(Step(Mode::Operand, deep, Some(15))),
        b'-' => Some(Step(Mode::Greater, deep, Some(16))),
        b'<' => Some(Step(Mode::DashGreater, deep, Some(17))),
        _ => None,
    }
}

// After the s of a signal.
fn at_digit(deep: usize, b: u8) -> Option<Step>
    ensures { Moves (step (digit deep) b) deep result }
{
    match b {
        b'0' => Some(Step(Mode::Operator, deep, Some(0))),
        b'1' => Some(Step(Mode::Operator, deep, Some(1))),
        b'2' => Some(Step(Mode::Operator, deep, Some(2))),
        b'3' => Some(Step(Mode::Operator, deep, Some(3))),
        _ => None,
    }
}

// Within a sign that goes on with one byte only.
fn at_byte(deep: usize, b: u8, want: u8, next: Mode) -> Option<Step>
    ensures { Moves (cond (eqb b want) (record { state = state_of next deep; sign = [] }) lost) deep result }
{
    if b == want {
        Some(Step(next, deep, None))
    } else {
        None
    }
}

// The step of the machine at a byte.
fn advance(mode: Mode, deep: usize, b: u8) -> Option<Step>
    requires { deep < 4096 }
    ensures { Moves (step (state_of mode deep) b) deep result }
{
    match mode {
        Mode::Operand => at_operand(deep, b),
        Mode::Operator => at_operator(deep, b),
        Mode::Digit => at_digit(deep, b),
        Mode::Rue => at_byte(deep, b, b'r', Mode::Ue),
        Mode::Ue => at_byte(deep, b, b'u', Mode::E),
        Mode::E => at_byte(deep, b, b'e', Mode::Operator),
        Mode::Alse => at_byte(deep, b, b'a', Mode::Lse),
        Mode::Lse => at_byte(deep, b, b'l', Mode::Se),
        Mode::Se => at_byte(deep, b, b's', Mode::E),
        Mode::Greater => at_byte(deep, b, b'>', Mode::Operand),
        Mode::DashGreater => at_byte(deep, b, b'-', Mode::Greater),
    }
}

// ---- the text

// Stores the signs of a text of at most 1,024 bytes at the front of `signs`: `Ok` is how many there are, `Err` the
// place of the fault.
#[tactic(auto, using(crate::proofs::Laws::pass))]
pub fn scan(text: &[u8], signs: &mut [u8]) -> Result<usize, usize>
    requires { (length text.now ≤ 1024) × (length text.now ≤ length signs.old) }
    ensures { Found text.now signs.new result }
{
    let mut mode = Mode::Operand;
    let mut deep: usize = 0;
    let mut count: usize = 0;
    for (i, &b) in text.iter().enumerate() {
        let Some(Step(next, depth, sign)) = advance(mode, deep, b) else {
            return Err(i);
        };
        if let Some(x) = sign {
            signs[count] = x;
            count += 1;
        }
        mode = next;
        deep = depth;
    }
    if matches!(mode, Mode::Operator) && deep == 0 {
        Ok(count)
    } else {
        Err(text.len())
    }
}
