// The lister's lines, of which the longest takes 61 bytes. Each is proved equal to its definition in specs/.
#![tactic(auto)]

ghost use Rattle.std.specs.Prelude.{◌+◌, ◌<◌, ◌≤◌, ◌≡◌, [], ◌∷◌, ◌++◌, length};
ghost use Rattle.lines.specs.Lines.{end_line, refused_line, token_line};

use arrayvec::ArrayString;
use itoa::{Buffer, Integer};

pub type Line = ArrayString<64>;

fn put_number<I: Integer>(line: &mut Line, number: I, after: char)
    requires ascii { after < 128 }
    requires room { length line.old.bytes + I.MAX_STR_LEN < 64 }
    ensures bytes { line.new.bytes ≡ line.old.bytes ++ I.text number ++ after ∷ [] }
    ensures short { length line.new.bytes ≤ length line.old.bytes + I.MAX_STR_LEN + 1 }
{
    line.push_str(Buffer::new().format(number));
    line.push(after);
}

fn line_of(word: &str, number: u32, start: usize, end: usize) -> Line
    requires { length word.now + 53 ≤ 64 }
    ensures { result.bytes ≡ word.now ++ token_line number start end }
{
    let mut line = Line::new();
    line.push_str(word);
    put_number(&mut line, number, ' ');
    put_number(&mut line, start, ' ');
    put_number(&mut line, end, '\n');
    line
}

pub fn three(number: u32, start: usize, end: usize) -> Line
    ensures { result.bytes ≡ token_line number start end }
{
    line_of("", number, start, end)
}

pub fn refused_line(number: u32, start: usize, end: usize) -> Line
    ensures { result.bytes ≡ refused_line number start end }
{
    line_of("refused ", number, start, end)
}

pub fn end_line(count: usize) -> Line
    ensures { result.bytes ≡ end_line count }
{
    let mut line = Line::new();
    line.push_str("end ");
    put_number(&mut line, count, '\n');
    line
}
