//! How bytes are decoded.

/// How the output of a child is decoded (GNU Emacs Lisp Reference Manual, Coding System Basics).
#[derive(Clone, Copy, Debug, PartialEq, Eq)]
pub enum Coding {
    /// As UTF-8.
    Utf8,
    /// As UTF-8 in which a carriage return directly before a line feed isn't there.
    Utf8Dos,
    /// Each byte as the character of its number.
    Latin1,
}
