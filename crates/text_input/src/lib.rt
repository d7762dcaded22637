// What the programs are given: the writer of rule files a number of signals as its argument and the text on its input,
// the runner of tables its events as its argument.
#![tactic(auto)]

ghost use Rattle.std.specs.Prelude.{◌≡◌, ◌≤◌, length, map};
ghost use Rattle.text_input.specs.Given.{value_of, is_help, request_of, without_line_end};
ghost use Rattle.text_input.specs.EventDigits.{hex_value, all_hex, put_value, run_request_of, events_in};

// What an argument asks for: the help text, or the program's work, for what the argument says.
#[derive(Clone, Copy)]
pub enum Asked<T> {
    Help,
    For(T),
}

fn is_help(argument: &[u8]) -> bool
    ensures { result ≡ is_help argument.now }
{
    argument == b"-h".as_slice() || argument == b"--help".as_slice()
}

// The value of decimal digits, if each byte is one.
fn value(digits: &[u8]) -> Option<usize>
    requires { length digits.now ≤ 3 }
    ensures { result ≡ value_of digits.now }
{
    let mut n: usize = 0;
    for &b in digits {
        if !b.is_ascii_digit() {
            return None;
        }
        n = n * 10 + usize::from(b - b'0');
    }
    Some(n)
}

// What the argument of the writer of rule files asks for, if it is one: the rule file over so many signals, or help.
pub fn read_argument(argument: &[u8]) -> Option<Asked<u8>>
    ensures { result ≡ request_of argument.now }
{
    if is_help(argument) {
        return Some(Asked::Help);
    }
    if argument.is_empty() || 3 < argument.len() {
        return None;
    }
    let n = value(argument)?;
    if n <= 255 {
        Some(Asked::For(n as u8))
    } else {
        None
    }
}

// The text with the line end dropped that stands last, if one does.
pub fn without_line_end(text: &[u8]) -> &[u8]
    ensures { result.now ≡ without_line_end text.now }
{
    text.strip_suffix(b"\n").unwrap_or(text)
}

// ---- a list of events, a digit of base 16 each

// The value of a digit.
fn hex_value(b: u8) -> Option<u8>
    ensures { result ≡ hex_value b }
{
    match b {
        b'0'..=b'9' => Some(b - 48),
        b'a'..=b'f' => Some(b - 87),
        b'A'..=b'F' => Some(b - 55),
        _ => None,
    }
}

fn all_hex(bytes: &[u8]) -> bool
    ensures { result ≡ all_hex bytes.now }
{
    bytes.iter().all(|b| hex_value(*b).is_some())
}

// Puts its value in the place of each digit.
fn put_values(bytes: &mut [u8])
    ensures { bytes.new ≡ map put_value bytes.old }
{
    for b in bytes.iter_mut() {
        *b = hex_value(*b).unwrap_or(*b);
    }
}

// What the argument of a run asks for, if it is one: a run, or help. Where it is digits alone, none too, their values
// are put in their places; any other is kept.
pub fn read_events(argument: &mut [u8]) -> Option<Asked<()>>
    ensures value { result ≡ run_request_of argument.old }
    ensures argument_after { argument.new ≡ events_in argument.old }
{
    if all_hex(argument) {
        put_values(argument);
        Some(Asked::For(()))
    } else if is_help(argument) {
        Some(Asked::Help)
    } else {
        None
    }
}
