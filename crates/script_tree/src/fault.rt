/// What is wrong with a line of a script. Of a line's faults the first of this list counts.
#[derive(Clone, Copy, Debug, PartialEq, Eq)]
pub enum ScriptFault {
    /// Its bytes aren't UTF-8.
    NotUtf8,
    /// It has more than 256 bytes without its LF.
    LineTooLong,
    /// It comes after line 4,096.
    TooManyLines,
    /// The first line that isn't blank isn't `script` and a version; or no line of the file is
    /// other than blank.
    BadHeader,
    /// It can't be cut into tokens.
    BadToken,
    /// Its tokens are no form of its place.
    BadStatement,
    /// It uses a name that isn't declared with the kind that is needed.
    UnknownName,
    /// It declares a name that an earlier line declares.
    TwiceNamed,
    /// One of its numbers is out of range.
    NumberRange,
    /// It is the last line, and a block is open after it.
    NoEnd,
    /// It closes a block that isn't there.
    StrayEnd,
    /// It is the last line, and the script has no thread.
    NoThread,
    /// It is one thread, object, nested block or byte more than a script may have.
    TooMany,
}
