//! What the system's files say of open files and of loop devices.

ghost use Rattle.std.specs.Prelude.{◌≡◌, ◌↔◌, ◌<◌, IsSome, IfSome, codes, length, option_map};
ghost use Rattle.gm_in_use.specs.SystemTexts.{IsOneLine, StartsWithLine, backing_path, before, is_open_for_writing, says_writing, without};

// Whether a line of `fdinfo` says that the file is open for writing.
fn says_writing(line: &str) -> bool
    ensures { result ≡ says_writing line.now }
{
    if !line.starts_with("flags:") {
        return false;
    }
    match line.as_bytes().last() {
        Some(digit) => b"123567".contains(digit),
        None => false,
    }
}

/// Whether a file is open for writing, by what `/proc/PID/fdinfo/N` says of it.
pub(crate) fn is_open_for_writing(info: &str) -> bool
    ensures { result ≡ is_open_for_writing info.now }
{
    info.split('\n').any(|line| says_writing(line))
}

// What stands before an end of a text, if the text has it.
fn before<'a>(end: &str, text: &'a str) -> Option<&'a str>
    ensures { option_map (λ part. part.now) result ≡ before end.now text.now }
{
    text.strip_suffix(end)
}

// A text without this end, if it has it.
fn without<'a>(end: &str, text: &'a str) -> &'a str
    ensures { result.now ≡ without end.now text.now }
{
    match before(end, text) {
        Some(part) => part,
        None => text,
    }
}

/// The path of the file that backs a loop device, by what its `backing_file` says.
pub(crate) fn backing_path(text: &str) -> &str
    ensures { result.now ≡ backing_path text.now }
{
    without(" (deleted)", without("\n", text))
}

// The first line of a text, if it has one.
fn first_line(text: &str) -> Option<&str>
    ensures some { IsSome result ↔ (0 < length text.now) }
    ensures first { IfSome result (λ line. StartsWithLine text.now line.now) }
    ensures one { IfSome result (λ line. IsOneLine line.now) }
{
    text.lines().next()
}

/// The name of a process's program, in one line, by what its `comm` says; `?` if that is nothing.
pub(crate) fn program_name(comm: &str) -> &str
    ensures told { 0 < length comm.now → StartsWithLine comm.now result.now }
    ensures untold { length comm.now ≡ 0 → result.now ≡ codes "?" }
    ensures one { IsOneLine result.now }
{
    match first_line(comm) {
        Some(line) => line,
        None => "?",
    }
}
