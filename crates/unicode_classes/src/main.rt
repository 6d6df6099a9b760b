// Walks the classes of document 01 over all scalars and far past them, and prints each run of members: the class, first and last in hex.
// A line with the number of members ends a class. bin/unicode-classes prints the same from the published Unicode files.
#![tactic(auto)]

ghost use Rattle.std.specs.Prelude.{◌+◌, ◌≤◌};

use std::io::Stdout;

// Prints the runs among the numbers from `low` to `high`; the answer is how many of them are members.
fn walk<F: Fn(u32) -> bool>(to: Stdout, name: &str, is_member: &F, low: u32, high: u32) -> u64
    requires { F.IsAlwaysCallable is_member.now }
    ensures { result ≤ high + 1 }
{
    let mut count: u64 = 0;
    let mut run: Option<(u32, u32)> = None;
    for v in low..=high {
        if is_member(v) {
            count += 1;
            let start = run.map_or(v, |(start, _)| start);
            run = Some((start, v));
        } else if let Some((start, last)) = run.take() {
            let _ = println!(to; "{name} {start:x} {last:x}");
        }
    }
    if let Some((start, last)) = run {
        let _ = println!(to; "{name} {start:x} {last:x}");
    }
    count
}

fn list<F: Fn(u32) -> bool + Drop>(to: Stdout, name: &str, is_member: F)
    requires { F.IsAlwaysCallable is_member }
{
    let low = walk(to, name, &is_member, 0, 0x11ffff);
    let high = walk(to, name, &is_member, 0xffffff00, 0xffffffff);
    let count = low + high;
    let _ = println!(to; "{name} count {count}");
}

fn main(rt: HostRuntime) {
    let to = rt.stdout();
    list(to, "white", |v| classes::is_whitespace(v));
    list(to, "control", |v| classes::is_control(v));
    list(to, "digit", |v| classes::is_ascii_digit(v));
    list(to, "hex", |v| classes::is_ascii_hexdigit(v));
    list(to, "start", |v| classes::is_xid_start(v));
    list(to, "continue", |v| classes::is_xid_continue(v));
}
