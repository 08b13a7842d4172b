//! What the words mean that the program prints: the kinds of faults, the words of verdicts and the
//! numbers of the status. docs/messages.md has the same at greater length.

/// Each word that is explained, with its text.
pub const EXPLANATIONS: &[(&str, &str)] = &[
    (
        "NotUtf8",
        "\
NotUtf8, of a script: the line isn't UTF-8. Usual cause: a file in another encoding has letters in
its comments. Save it as UTF-8.
",
    ),
    (
        "LineTooLong",
        "\
LineTooLong, of a script: the line has more than 256 bytes. A comment counts, and so does a CR.
Usual cause: a long comment behind a statement. Give it a line of its own, or several.
",
    ),
    (
        "TooManyLines",
        "\
TooManyLines, of a script: it has more than 4096 lines. Blank lines and comments count. Usual cause:
the script was made by a program. Take fewer rounds of the same, or write them as a while.
",
    ),
    (
        "BadHeader",
        "\
BadHeader, of a script: its first line that isn't blank isn't script and 1, 2 or 3. Usual causes:
the header was forgotten; there is no such version; the file is no script; a byte order mark stands
before the header: save the file without one.
  wrong:  thread A
  mended: script 1

BadHeader, of a trace: one of its first four lines is missing, lacks its LF or isn't of its form.
Usual causes: the file is no trace, or is empty; it was made with another number of threads. Make it
once more by run.

BadHeader, of a directive: one of its first two lines is missing, lacks its LF or isn't of its form.
Usual causes: the file is no directive, or is empty. Make it once more by find.
",
    ),
    (
        "BadToken",
        "\
BadToken, of a script: the line has a sign or a word that there isn't. Usual causes: a semicolon at
the end; a single & or |; a quote; a letter right behind a number; a word of more than 32
characters.
  wrong:  write x 1;
  mended: write x 1
",
    ),
    (
        "BadStatement",
        "\
BadStatement, of a script: the words are a statement, but not in this form or at this place. Usual
causes follow. An assignment sign, which only a declaration has:
  wrong:  write x = 1
  mended: write x 1
The comma of cas between its two values is missing:
  wrong:  cas r0 x 0 1
  mended: cas r0 x 0, 1
An expression where a name stands, or a variable in an expression, which has numbers and registers
alone. The variable is read into a register first:
  wrong:  assert x == 0
  mended: read r0 x
  mended: assert r0 == 0
A keyword of a later version. start needs script 2, and read-write locks need script 3:
  wrong:  script 1
  mended: script 2
A declaration after the first thread: it belongs above all threads.
",
    ),
    (
        "UnknownName",
        "\
UnknownName, of a script: no line above declares the name, or it is one of another kind, such as a
variable where a mutex is needed. Usual causes: a slip of the pen; Lock for lock.
  wrong:  lock mm
  mended: lock m

UnknownName, of a trace: a name isn't declared with the kind that its place needs. Usual cause: it
is the trace of another script, or a thread or an object has another name now. Make it once more by
run.

UnknownName, of a directive: a name isn't that of a thread. Usual cause: it is the directive of
another script, or a thread has another name now. Make it once more by find.
",
    ),
    (
        "TwiceNamed",
        "\
TwiceNamed, of a script: the name is declared above already, of whatever kind. Usual cause: a mutex
has the name of its variable.
  wrong:  mutex count
  mended: mutex of_count
",
    ),
    (
        "NumberRange",
        "\
NumberRange, of a script: a first value is out of its range, or a number in an expression is above
9223372036854775807. A semaphore begins at 0 to 2147483647, and a barrier has 1 to 1000 threads.
  wrong:  barrier b = 0
  mended: barrier b = 1
",
    ),
    (
        "NoEnd",
        "\
NoEnd, of a script: a block or a thread is open at the end of the text; the line is the last one.
Usual cause: the end of an if or a while is missing somewhere above.
  mended: end
",
    ),
    (
        "StrayEnd",
        "\
StrayEnd, of a script: an end with nothing open, or an else that belongs to no if. Usual cause: one
end too many above. Leave it out.
  wrong:  end
",
    ),
    (
        "NoThread",
        "\
NoThread, of a script: there is no thread in the whole text. Usual cause: only declarations were
written so far.
  mended: thread A
  mended: end
",
    ),
    (
        "TooMany",
        "\
TooMany, of a script: there are more than 16 threads (64 with script 3), or more than 64 objects of
a kind, or blocks within blocks deeper than 32; or the text has more than 1048576 bytes, which is
said of line 1. For more than 16 threads write the header script 3.
",
    ),
    (
        "TooLong",
        "\
TooLong, of a trace: it has more than 16777216 bytes, which is said of line 1, or a step's number is
above the limit on its fourth line. Usual causes: another file; a limit that was changed by hand.
Make it once more by run.

TooLong, of a directive: it has more than 65536 bytes, which is said of line 1, or an eighth line
after. Usual causes: another file; a line after was added by hand. Make it once more by find.
",
    ),
    (
        "BadLine",
        "\
BadLine, of a trace: a line behind the first four is neither a step nor a verdict by its form, or
lacks its LF. Usual causes: the file was changed by hand, or has CR at its line ends, or was cut
within a line; it has a read-write lock and is of version 1. Make it once more by run.

BadLine, of a directive: a line behind the first two is neither after nor a verdict by its form, or
lacks its LF. Usual causes: the same. Make it once more by find.
",
    ),
    (
        "OutOfOrder",
        "\
OutOfOrder, of a trace: a step's number isn't one more than that of the step before. Usual causes: a
step was left out, or lines were moved. Make it once more by run.
",
    ),
    (
        "NoVerdict",
        "\
NoVerdict, of a trace or a directive: it ends before its verdict; the line is the one that is
missing. Usual cause: its writing was cut off. Make it once more, by run or by find.
",
    ),
    (
        "MoreAfterVerdict",
        "\
MoreAfterVerdict, of a trace or a directive: something stands behind its verdict. Usual cause: two
of them are in one file, or there is a blank line at its end. Leave out what stands there.
",
    ),
    (
        "passed",
        "\
passed, a verdict: every thread has ended, or was never started.
",
    ),
    (
        "failed",
        "\
failed THREAD LINE, a verdict: the assertion there doesn't hold. The thread's step before it in the
trace shows the value.
",
    ),
    (
        "stuck",
        "\
stuck THREAD LINE .., a verdict: these threads wait at these lines, and nobody can go on. Usual
causes: a deadlock; a signal that came before its wait; a semaphore or a barrier at which one is
missing.
",
    ),
    (
        "misuse",
        "\
misuse THREAD LINE KIND, a verdict: the thread did what it may not do there. KIND is notowner,
semfull, alreadystarted or toomanyreads, each of which is explained by itself.
",
    ),
    (
        "fault",
        "\
fault THREAD LINE KIND, a verdict: the thread can't go on there. KIND is overflow, zerodivisor or
spin, each of which is explained by itself.
",
    ),
    (
        "cut",
        "\
cut, a verdict: the run would go on beyond its limit, 10000 steps where --limit says nothing. Usual
cause: a loop that waits for a thread of lower priority. Write the wait as down, wait or join, or as
a bounded number of looks.
",
    ),
    (
        "notowner",
        "\
notowner, a misuse: an unlock, a wait or a rwunlock by a thread that doesn't hold the lock. Usual
causes: a way through an if on which lock is missing; a trylock whose answer isn't looked at.
",
    ),
    (
        "semfull",
        "\
semfull, a misuse: an up of a semaphore at 2147483647. Usual cause: its first value is too great.
",
    ),
    (
        "alreadystarted",
        "\
alreadystarted, a misuse: a second start of one thread. Usual cause: the start stands in a loop, or
two threads have it.
",
    ),
    (
        "toomanyreads",
        "\
toomanyreads, a misuse: a thread takes a read-write lock to read for the 1001st time without giving
it back. Usual cause: a rdlock in a loop without its rwunlock.
",
    ),
    (
        "overflow",
        "\
overflow, a fault: a number is out of the range of 64 bits, -9223372036854775808 to
9223372036854775807.
",
    ),
    (
        "zerodivisor",
        "\
zerodivisor, a fault: a division by 0, or % by 0. Test the divisor by an if before.
",
    ),
    (
        "spin",
        "\
spin, a fault: a loop of more than 10000 local moves without a step. Usual cause: it reads nothing
that another thread could change. Let it read the variable in its body.
",
    ),
    (
        "0",
        "\
Status 0: each run passes; there are no races; there is an order of the mutexes; the trace is
confirmed; what is exposed has the directive's verdict; or the directive is certified.
",
    ),
    (
        "1",
        "\
Status 1: the answer is whole, and another one than that of status 0. A run has another verdict,
there are races or a cycle, the replay departs from the trace, what is exposed is too long or has
another verdict, the directive isn't certified, or a sweep has too many choices.
",
    ),
    (
        "2",
        "\
Status 2, usage: word N. The words are counted from 1, after pct. Word N isn't known there, or its
value isn't, or it is missing. Usual causes: an option of another command, or one that stands twice;
a number out of its range or with a leading zero; a space behind a comma. Where N is the value of
--order, the order doesn't name each thread of the script once.
  wrong:  --order A, B
  mended: --order A,B
",
    ),
    (
        "3",
        "\
Status 3, script: line L KIND. The first file is no script: line L is the first faulty one. KIND is
explained by itself.
",
    ),
    (
        "4",
        "\
Status 4, trace: line L KIND. The second file is no trace of the script's threads and objects: line
L is the first faulty one. KIND is explained by itself.
",
    ),
    (
        "5",
        "\
Status 5, directive: line L KIND. The second file is no directive of the script's threads: line L is
the first faulty one. KIND is explained by itself.
",
    ),
    (
        "6",
        "\
Status 6, read fault: a file can't be read. Look at its name, and whether it may be read.
",
    ),
    (
        "7",
        "\
Status 7, write fault: the output can't be written. Usual causes: a full disk; a pipe whose reader
has gone.
",
    ),
    (
        "8",
        "\
Status 8, no memory: there is no memory for the answer. Usual cause: a limit on memory.
",
    ),
];
