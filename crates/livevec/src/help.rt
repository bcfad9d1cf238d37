//! The texts of `--help` and `--version`.

/// The version of the program, and the logic in which it is proved, as `rt version` shows it. Toolchains with equal logic accept the same proofs.
pub const VERSION: &str = "0.3.0 (logic dac8208d650f15bf)";

/// What the program is.
pub const ABOUT: &str =
    "A growable vector of 64-bit integers whose range queries stay fast while it is updated";

/// The meaning of its exit codes.
pub const STATUSES: &str = "\
Exit codes:
  0  success; for `audit`: the transcript, prefix or log is valid
  1  a fault, reported on standard error as `livevec: fault N`; the next line says what failed.
     For `audit`: the input is not valid (`no` or `bad`)
  2  a usage error, reported on standard error
  3  with --quiet-pipe: the reader of standard output has ended, as `head` does; nothing is reported
Faults:
   6 out of memory
  13 a read failed, a file can't be opened, or what it has is not valid
  14 a write failed, or a file can't be created or replaced

File names must be UTF-8. To use a file with another name, make a link to it with a UTF-8 name. If
standard input or output is non-blocking, the program waits for it.

`livevec COMMAND --help` explains the lines, the replies and the files of a command. The manual page,
`man livevec`, also explains signals, pipes, and what to do about a damaged log.";

/// The summary of `run`.
pub const RUN: &str =
    "Answers a script: reads lines from standard input and writes the reply to each";

/// The lines of a script and their replies.
pub const LINES: &str = "\
Lines and their replies (N, I, J, LO and HI are numbers, X is an element, and HI is excluded):
  push X              edit E at I
  pop                 edit E value X
  write I X           edit E was X
  reserve N           edit E capacity C
  swap I J            edit E now X Y: X is now at I, and Y at J
  truncate N          edit E dropped D: the first N elements are kept, and D were dropped
  settle              settled
  get I               value X
  size                size N edit E
  capacity            capacity C
  reduce KIND LO HI   at E KIND VALUE
  inc KIND LO HI      at E inc KIND N, then N lines `= VALUE`: running values, own element included
  exc KIND LO HI      at E exc KIND N, then N lines `= VALUE`: running values, own element excluded
  cost LO HI          cells C summaries S: how many reads a reduction of the range takes
  claim               job K node L M version V: a task that precomputes a part of the tree; or idle
  deliver K           the result of task K is handed in. It is stored (installed), already there (held),
                      or outdated (stale NOW, with the number of the update that came in between)
  forget              forgotten: all claimed tasks are dropped
  watch NAME KIND LO HI, unwatch NAME, answer NAME
                      watching NAME, unwatched NAME, at E NAME VALUE

KIND is sum, least (minimum), greatest (maximum), best (maximum subarray sum), affine (composition of
affine maps) or automaton (composition of an automaton's transitions). E is the number of the last
update. After an update there is a line `note NAME VALUE` for each watched query whose answer changed.
Blank lines and lines that begin with # have no reply.

If a line is rejected the reply is `refused N`, and nothing changes:
   1 Worn: the limit of updates is reached   7 BadRange: LO is above HI
   2 Empty: there is nothing to pop         10 NameTaken
   3 OutOfRange: the index is past the end  11 NoSuchName
   4 TooLarge: a reserve above the limit    12 TooMany: there are 64 names already
   5 Full: the limit of elements is reached 19 NoJob: no task has this number
   6 NoMemory: out of memory; also a claim past --jobs
The reply to any other line is `bad N`, where N is the line's number.

With --series the vector is unbounded, and its indices go up to 2^62. There are these lines too:
  expire I            edit E first I: the elements before index I are dropped, the others keep their indices
  first               first I edit E
  watch NAME KIND last N
                      watching NAME: the last N elements
  watch NAME KIND LO HI at-least X, at-most X, also with last N
                      watching NAME: notes only when the answer begins or ceases to be within the bound
  first at-least X LO HI, first at-most X LO HI, last at-least X LO HI, last at-most X LO HI
                      at E index I: the first or the last such element of the range, or at E none
  reach X LO HI       at E index I: the elements from LO up to I, I excluded, add up to at least X
  where least LO HI, where greatest LO HI
                      at E index I: the first minimum or maximum
  where best LO HI    at E from I to J: the run with the greatest sum, J excluded
A bound needs one of the kinds sum, least, greatest and best. A search is rejected with error 6 if there
is no memory for its tree. The size is the index after the last element. An index before the first one
that is kept is rejected with error 3. A query covers those elements of its range that are kept. The lines
reserve, capacity, settle, cost, claim, deliver and forget are bad here.";

/// The summary of `serve`.
pub const SERVE: &str =
    "Serves sessions: answers each file's lines in a thread of its own, then writes the transcript";

/// The lines of a session, and its files.
pub const SESSIONS: &str = "\
Give 1 to 16 files, or up to N with --clients N. Give each file once, and none that is another's FILE.out.
The sessions share one vector. They know the lines push, pop, write, reserve, swap, truncate, reduce, inc
and exc; `livevec run --help` explains these. The reply to any other line is `bad N`.

Workers precompute parts of the tree. They sleep while there is nothing to do, and end with the last
session. A turn in which a worker finds no task counts too, so give more --turns for long sessions.

FILES
Each FILE and its FILE.out are opened in order before a session begins. If one can't be opened, that is
the fault, and no file has changed. Each FILE.out is emptied once all are open. It is a usage error if a
FILE.out is a symbolic link, has a second name, is locked by another program (as the log of a running
server is), or is another name of a file that this command reads or writes, standard streams included.

PIPES
With --transcript or --log, a FILE that is not a regular file, such as a named pipe, is opened by its own
session once the other files are open, so a client that comes later holds up nobody else. Standard error
then says `livevec: ready, N clients`. If a client's last line has no line end, it is not done, since
it may have been cut off: its reply is `bad N`. With --log a session goes on when its client ends, and
answers the next client that opens the pipe, until a signal ends the server. With --once or --transcript
it ends with its first client. Each client takes two open files (`ulimit -n`).

SIGNALS
A signal that ends the program ends all sessions at once. With --log or --transcript, each update that
was replied is then in that file. Without these options no transcript is written.

TRANSCRIPT
Without --log the transcript goes to standard output at the end: first the updates, then each answered
reduction in the order of updates. `livevec audit` checks it. If a session ends with a fault, no
transcript is written. If standard output is a file, standard error says once that it becomes longer than
1073741824 bytes, the most that `livevec audit` reads.

With --transcript FILE each update and each answered reduction is also written to FILE before its reply,
in real order and in complete lines. FILE is opened after the others, locked, and emptied last. It is a
usage error if it is a symbolic link, has a second name, or is locked, for example by another server. If
`serve` is killed, `livevec audit --front` says how much is there, and `livevec restore` continues from
it. At a good end its last line is `end`. With --sync each write is on the disk before the reply. If FILE
can't be written, standard error says so at once, the sessions end, and `serve` ends with a fault. A write
that would make FILE longer than 4294967293 bytes fails too, since `livevec audit --front` and `livevec
restore` read no more. Standard error says once that FILE becomes longer than 1073741824 bytes.

LOG
With --log FILE the server begins with the updates of FILE, and appends each new one before its reply.
Nothing goes to standard output. The numbers of updates continue those of FILE, also after `livevec
compact`. With --log-answers answers are appended too. To check a log, use `livevec audit --front < FILE`:
without --front, `livevec audit` takes only a transcript, and says `bad 1` of a log.

FILE is created if it doesn't exist, so that only its owner may open it. It is opened before the other
files, and locked before it is read. The usage errors are those of --transcript. With --must-exist it is a
fault if FILE doesn't exist or has no complete line. Standard error says how many updates and elements
there are. If the last line is incomplete, it is cut off, and standard error says so; if it has more than
137 bytes, that is a fault. Each line of FILE ends in a checksum of all bytes before it. If a line is
wrong, or --buckets or --edits reject an update, that is a fault, which names the line, and no file has
changed. A log of version 2, which has no checksums, is replaced by one of version 3 at the start, as by
`livevec compact`; with --keep-version it stays as it is. A transcript is rejected: `livevec compact FILE`
turns it into a log. If FILE can't be written, would become longer than 4294967293 bytes, or was removed,
renamed or replaced, standard error says so at once, the sessions end, and `serve` ends with a fault.

A running server replaces its log by a new one, which has only the current elements, as `livevec compact`
does. It does so before the updates of its vector are used up, and when the log has reached the size of
--compact-at and is twice as long as when it was last replaced. Clients notice nothing, and the numbers go
on. The old file is kept as FILE.1 unless --drop-old is given. At the start it is a usage error if a FILE.1
exists that is not an older log, which is one whose updates all come before FILE's. If the log can't be
replaced, standard error says why, and the old log stays. With --edits below 16777215 the log is never
replaced, and no more updates are accepted at that limit.

WATCH
With --watch FILE, up to 4 times, a subscriber runs next to the sessions. FILE has at most 64 lines
`watch NAME KIND LO HI`, blank lines and comments. `last N` in place of LO HI means the last N elements,
and `at-least X` or `at-most X` may follow. A wrong line is a fault, which names the line before a session
begins. When the answer of a name differs from the last one reported, or begins or ceases to be within the
bound, `at E NAME VALUE` is written to FILE.out: VALUE is the answer after update E. Updates may be
skipped, but at the end each such change has been reported. The first report of a name is compared with
the answer of an empty vector. FILE and FILE.out are opened after those of the sessions, by the same rules.
If FILE.out can't be written, only its subscriber ends, and `serve` ends with a fault at the end.

MEMORY
With --answers N each session keeps at most N answers for the transcript, and a `reduce` past that gets
`refused 6`. If memory runs out, lines get `refused 6` too, and the transcript is still complete.";

/// The summary of `restore`.
pub const RESTORE: &str =
    "Replays FILE, a log or a transcript or a prefix of one, then answers a script as `run` does";

/// What a prefix of a transcript is, and what is rejected.
pub const RESTORED: &str = "\
FILE is a log, a transcript, or a prefix of a transcript: complete lines from the first on, in which
updates and answers may be in real order. What follows the last line end doesn't count. The updates of
FILE are replayed, and those of the script are numbered after them. If a line of FILE is wrong, that is a
fault, which names the line, and nothing is answered. `livevec audit --front < FILE` checks FILE without
answering a script. FILE is only read: standard output or standard error may not go there.";

/// The summary of `compact`.
pub const COMPACT: &str =
    "Replaces the log FILE by a short one, which has only the elements that there are at its end";

/// What happens to the files.
pub const COMPACTED: &str = "\
FILE is a log that no server has open, or a transcript, or a prefix of one. It is replaced by a log of the
elements that there are after all its updates. The next update gets the number that it would have had, and
`livevec serve --log FILE` continues from it. One line on standard output says what was done. If the last
line of FILE is incomplete, it is left out, and standard error says so. To check FILE before or afterwards,
use `livevec audit --front < FILE`; without --front, `livevec audit` says `bad 1` of a log.

The old file is kept as FILE.1, in place of an older log with that name, unless --drop-old is given. The
new log is written to FILE.compacting, and is renamed to FILE when it is complete and on the disk. So if
`compact` is killed, FILE is the old file or the new one. Then FILE.compacting may be left, or FILE.1 as a
second name of FILE. The next `compact` uses these names again, and `serve --log` removes the second name.

FILE is locked meanwhile. It is a usage error if FILE is a symbolic link, has a second name, or is locked,
for example by a server. It is also a usage error if FILE.1 or FILE.compacting is locked or not a regular
file, or if FILE.1 is not an older log. If FILE is neither a log nor a prefix of a transcript, that is a
fault, which names the first wrong line, and nothing changes. If FILE is moved or replaced by another
program meanwhile, that is a fault too, and nothing is replaced.";

/// The summary of `board`.
pub const BOARD: &str =
    "Serves sessions on a lock-free vector: answers each file's lines in a thread of its own, with one try a line";

/// The lines of a session at a board, and its files.
pub const TRIES: &str = "\
Give 1 to 8 files. Give each once, and none that is another's FILE.out. The sessions share one vector of
16-bit elements without a lock: no session ever waits for another.

Lines and their replies (I, B, LO and HI are numbers, X is an element, HI is excluded, and KIND is that
of --body):
  push X              edit E at I
  pop                 edit E value X
  write I X           edit E was X
  get I               value X
  size                size N edit E
  reduce KIND LO HI   at E KIND VALUE
  refresh B           fresh B version V: the value of block B, the elements 8 * B to 8 * B + 7, is stored;
                      a reduction over the block then reads it instead of the eight elements
Blank lines and lines that begin with # have no reply. The reply to any other line is `bad N`, where N
is the line's number.

If a line is rejected the reply is `refused N`, and the elements stay as they are:
   1 Worn: the limit of updates is reached   5 Full: the limit of elements is reached
   2 Empty: there is nothing to pop          7 BadRange: LO is above HI
   3 OutOfRange: the index is past the end; 16 TooWide: the element doesn't fit 16 bits
     for refresh: the block isn't full
  17 Contended: another session's update came first, between this line's snapshot of the vector and its
     compare-and-swap. Nothing was changed; try the line again if you still want it.
  18 Overtaken: a word of another session's later update was read. Try the line again.
If you try a line again, other sessions may have changed the vector in the meantime.

Each FILE and its FILE.out are opened in order before a session begins. If one can't be opened, that is
the fault, and no file has changed. Each FILE.out is emptied once all are open. It is a usage error if a
FILE.out is a symbolic link, has a second name, is locked by another program (as the log of a running
server is), or is another name of a file that this command reads or writes, standard streams included. If
several sessions have faults, that of the first file is reported.";

/// The summary of `schedule`.
pub const SCHEDULE: &str =
    "Plays the lock-free algorithm one atomic step at a time, by a schedule on standard input";

/// The lines of a schedule, their replies, and the steps of each call.
pub const EVENTS: &str = "\
The machine is a vector of 16-bit elements that several threads (actors) use at once without a lock.
An actor has at most one call at a time. Only what a line says happens.

Lines (A is an actor, numbered from 0; X is an element; I, B, LO and HI are numbers, and HI is excluded):
  call A push X      call A pop       call A write I X
  call A get I       call A size      call A reduce LO HI
  call A refresh B   stores the value of block B, the elements 8 * B to 8 * B + 7
  step A             makes the next step of A's call
Blank lines and lines that begin with # have no reply.

Replies:
  started A          the call has begun, and needs steps
  step A             the step is done, and the call goes on
  done A REPLY       the call has ended with REPLY: edit E at I, edit E value X, edit E was X, value X,
                     size N edit E, at E sum VALUE, fresh B version V or refused N
  refused 20         nothing happened: there is no actor A, a step comes without a call, or a call comes
                     while another one is running
  bad N              line N is none of the lines above

Steps of each call, in order; each is one atomic operation on one word:
  push               look, help, exchange
  pop, write         look, help, load the cell, exchange
  get                look, help, load the cell
  size               look
  reduce             look, help; then from LO on, for each block of eight that begins there and ends
                     by HI: load its mark and its part, and its eight cells if the part has another
                     version; if no such block begins there: load the cell
  refresh            look, help, load the mark, load the eight cells, install the part

  look               loads the descriptor: the number of the last update, the size, and that update's
                     write, which may not be in its cell yet
  help               two steps if the look has such a write: help the cell (put the element there),
                     then help the mark (record the update's number for the block); otherwise none
  exchange           replaces the look by the next descriptor, if it is still there (compare-and-swap)
  load, install      reads a word; stores a part with its version, unless a later one is there

A cell, a mark and a part have a version: the number of the update from which they come.

A call fails
  16 TooWide         before its first step: the element doesn't fit 16 bits
   7 BadRange        before its first step: LO is above HI
   1 2 3 5           at its look, for the reasons in `livevec run --help`
  17 Contended       at its exchange: another update came after the look; call again
  18 Overtaken       at a cell or a mark of a later update than its look
Error 20 (NotNow) is explained above.";

/// The summary of `audit`.
pub const AUDIT: &str =
    "Checks a transcript on standard input, or with --front a log, by replaying it";

/// What `audit` says on standard error if the first line isn't that of a transcript.
pub const NO_TRANSCRIPT: &str =
    "livevec: the first line is not `livevec 1`, so this is no transcript: check a log, which begins with `livevec 2` or `livevec 3`, by `livevec audit --front`";

/// The meaning of its verdicts.
pub const VERDICTS: &str = "\
Writes `yes` (exit code 0), `no N` if line N is false, or `bad N` if line N doesn't have the form of a
line of a transcript, or is missing (exit code 1).

A log begins with `livevec 2` or `livevec 3`, and is no transcript. So `livevec audit` says `bad 1` of it,
and standard error says so too: use `livevec audit --front`.

With --front it writes `front N edits M answers` (exit code 0) for a valid prefix of a transcript:
complete lines from the first on, as after a crash. For a valid log it writes `log BASE base COUNT elements
N edits M answers`: BASE updates came before the log, which begins with COUNT elements, and N updates
follow these. An answer may come before updates that are later than its own. What follows the last line
end doesn't count. A line that is false, or doesn't have the right form, is reported as above.

It reads at most 1073741824 bytes, and with --front 4294967293.";
