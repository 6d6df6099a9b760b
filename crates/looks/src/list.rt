// Tokens by their numbers in the lent list. Each read is total: past the list's end a word is 0.
ghost use Rattle.std.specs.Prelude.{◌≤◌, ◌≡◌, get_or};
ghost use Rattle.looks.specs.Numbered.{dark, end_at, is_white, kind_at, list_end, start_at, token_count};

pub(crate) fn wide(x: u32) -> usize
    ensures { (result ≡ x) × (result ≤ 4294967295) }
{
    x as usize
}

pub(crate) fn count_of(list: &[u32]) -> u32
    ensures { result ≡ token_count list.now }
{
    u32::try_from(list.len() / 3).unwrap_or(u32::MAX)
}

pub(crate) fn word(list: &[u32], at: usize) -> u32
    ensures { result ≡ get_or list.now at 0 }
{
    list.get(at).copied().unwrap_or(0)
}

pub(crate) fn kind_at(list: &[u32], i: u32) -> u32
    ensures { result ≡ kind_at list.now i }
{
    word(list, wide(i) * 3)
}

pub(crate) fn start_at(list: &[u32], i: u32) -> u32
    ensures { result ≡ start_at list.now i }
{
    word(list, wide(i) * 3 + 1)
}

pub(crate) fn end_at(list: &[u32], i: u32) -> u32
    ensures { result ≡ end_at list.now i }
{
    word(list, wide(i) * 3 + 2)
}

pub(crate) fn list_end(list: &[u32]) -> u32
    ensures { result ≡ list_end list.now }
{
    let count = count_of(list);
    if count == 0 {
        return 0;
    }
    end_at(list, count - 1)
}

pub(crate) fn is_white(kind: u32) -> bool
    ensures { result ≡ is_white kind }
{
    matches!(kind, 1..=4)
}

pub(crate) fn next_dark(list: &[u32], from: u32) -> u32
    ensures { result ≡ dark list.now from }
{
    let count = count_of(list);
    for i in from..count {
        if !is_white(kind_at(list, i)) {
            return i;
        }
    }
    from.max(count)
}
