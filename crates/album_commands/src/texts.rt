//! What the program and its subcommands say of themselves, and of their lines.

pub(crate) const ABOUT: &str =
    "A photo album store that judges by NFSv4 access lists, with proved decisions";

pub(crate) const JUDGE_ABOUT: &str =
    "Answers each line of standard input, a question about an access list, by one line";

pub(crate) const JUDGE_HELP: &str =
    r#"A line is a JSON object. This one asks whether amy may read (mask 1) an object of bo's that carries a
list of one entry:

  {"entries":[["allow","amy@users",1,0]],"group":0,"mask":1,"owner":"bo@users","who":"amy@users"}

  entries  the list: [type, who, mask, flags] each, in order. A type is allow, deny, audit or alarm.
           A who is name@users, number@groups (with flag 64), OWNER@, GROUP@, EVERYONE@, ANONYMOUS@
           or AUTHENTICATED@
  group    the number of the group that GROUP@ means
  mask     the bits that are asked, added up: 1 read, 2 write, 4 append, .. (docs/FORMATS.md has all)
  owner    who owns the object: name@users
  who      the principal: name@users or ANONYMOUS@
  kind     may be left out: picture, album or group, the object that carries the list
  groups   may be left out: [number, members] each, a member being name@users or number@groups
  policy   may be left out: 1; or 2, which lets an owner always read and change the list of what he owns

It is answered by one of these lines, `at` being the index of the entry that denies, from 0:

  {"answer":"granted"}
  {"answer":"denied","at":0}
  {"answer":"denied","at":"end"}
  {"name":"BadMask","refused":5}

The lines of each FILE are answered in turn, in the place of standard input."#;

pub(crate) const REPLAY_ABOUT: &str =
    "Opens a store by the first lines of standard input, and prints the outputs of the events that follow";

pub(crate) const REPLAY_HELP: &str =
    r#"Lines are JSON objects. The opening comes first: how the store is opened, each item with its value, and
that these are all. Two partitions, and a picture of amy's with a list that lets everyone read it:

  {"open":{"checked":true,"parts":2}}
  {"item":"picture/0","value":{"content":"736561","group":0,"home":0,"list":0,"owner":"amy@users","title":"Sea"}}
  {"item":"list/0","value":{"entries":[["allow","EVERYONE@",1,0]]}}
  {"begin":true}

  open     parts, how many partitions there are, from 1 to 16. These may be left out: limit, the marks for
           which a partition has room (100000), and a write makes two at each that it concerns; policy,
           1, 2 or 3 (1); checked, whether a write is kept only on the versions that its author saw (false):
           where it isn't, of writes of one item that race all but one may be lost; first, the greatest
           counter of the stamps that epochs before drew (0); trace, whether each message that is sent is
           printed (false)
  value    of a picture: content, group, home, list, owner and title; of an album: children, group, home,
           list, owner and title; of a list: entries; of a group: group, list, members and owner

Every later line is an event, or a range of deliveries. Here bo asks to read the picture, and the messages
are delivered:

  {"ask":{"do":"read","object":"picture/0"},"client":1,"who":"bo@users"}
  {"deliver":[1,16]}

  ask      who is name@users or ANONYMOUS@, client a number from 1 to 65535, and do one of read, list,
           get_list, head, children, add_picture, add_album, add_group, retitle, replace, delete, move,
           set_lists, set_owner, set_members and share, each with fields of its own (docs/FORMATS.md has all)
  deliver  the number of a message, the first that is sent being 1; or [first, last], at most 10000 of them
  sweep    part and stamp: the partition asks the others for the state of a write that is pending at it
  stop     the number of a client, which stops for good
  trim     item and part: the partition lets old versions of the item go

Each output of an event is one line: a note, a message in a trace, an answer. So is each refusal:

  {"answer":"served","client":1,"content":"736561","object":"picture/0","stamp":0,"title":"Sea"}
  {"name":"NoSuchMessage","refused":14}

A refused event changes nothing, and a refused opening ends the run. With FILE the script is read from it."#;

pub(crate) const ASK_ABOUT: &str =
    "Sends each line of standard input to a service, and prints the line that answers it";

pub(crate) const ASK_HELP: &str =
    r#"A line is a request; any other line of a connection is sent as it is:

  {"do":"read","object":"picture/0"}
  {"do":"set_lists","lists":[["picture/0",[["allow","EVERYONE@",1,0]]]]}
  {"pending":0}

On a terminal each is asked for by a prompt. With --text an answer is spelled out:

  {"answer":"served","client":1,"object":"picture/0","stamp":0,"text":"sea","title":"Sea"}
  {"answer":"denied","client":1,"reasons":[["picture/0","DELETE","end"]]}
  {"answer":"committed","client":1,"object":"picture/65537","stamp":65537}

The status is 1 where there is no service at the port, where it refuses WHO, or where it ends before the
last line is answered."#;

pub(crate) const EXPLAIN_ABOUT: &str =
    "Says of each line where it is refused, or which entry decides each bit";

pub(crate) const EXPLAIN_HELP: &str =
    r#"The lines are those of `album judge`. Each that isn't blank is explained by one line, with its number:

  {"at":"entries[1].mask","line":3,"name":"BadMask","refused":5,"value":512}
  {"answer":"denied","at":1,"bits":[["READ_DATA","allowed",0],["WRITE_DATA","denied",1]],"groups":[],"line":4}

  at       of a refusal the part of the line that fails its test, or the byte from which on it is no JSON;
           of a verdict the index of the entry that denies, from 0, or "end"
  bits     of each bit that is asked its name, whether it is allowed, and the index of the entry that decides
           it: "end" where none does, "owner" where a policy gives it
  groups   the numbers of the line's groups that the principal is in
  value    the number that is there, if one is

The status is 1 where a line is refused. The lines of each FILE are explained in turn, in the place of
standard input, and counted from 1 in each."#;

pub(crate) const OPENING_ABOUT: &str =
    "Says of each line of an opening, and of the events after it, what it is or where it is refused";

pub(crate) const EVENT_ABOUT: &str = "Says of each line which event it is, or where it is refused";

pub(crate) const TALK_ABOUT: &str =
    "Says of each line of a connection what it is, or where it is refused";

pub(crate) const LINES_HELP: &str =
    r#"The lines are those of `album replay`, and of a connection to `album serve`. Each that isn't blank is
explained by one line, with its number:

  {"kind":"ask","line":3,"reads":"event"}
  {"at":"ask.lists[0].entries[1].mask","line":4,"name":"BadMask","refused":5,"value":512}
  {"at":"line 3: value.list","line":6,"name":"BadOpening","refused":22,"value":0}

  kind     what the line is, by the name in it that says so, where it isn't refused
  reads    what it is read as: opening, event or talk
  remark   of the header of a store that isn't checked: which writes may be lost
  at       of a refusal the part of the line that fails its test; the byte from which on it is no JSON; or, of
           an opening that is refused as a whole, the line with the part that fails
  value    the number that is there, if one is

The status is 1 where a line is refused. The lines of each FILE are explained in turn, in the place of
standard input, and counted from 1 in each."#;

pub(crate) const MASK_ABOUT: &str =
    "Prints the number of a mask's names, or the names of its number";

pub(crate) const FLAGS_ABOUT: &str =
    "Prints the number of the names of an entry's flags, or the names of their number";

pub(crate) const NAMES_HELP: &str = r#"As in

  $ album mask READ_DATA,WRITE_ACL
  {"mask":262145}
  $ album flags 3
  {"flags":3,"names":["FILE_INHERIT","DIRECTORY_INHERIT"]}

docs/FORMATS.md has all names."#;

pub(crate) const CHECK_DATA_ABOUT: &str =
    "Looks whether a service would begin on a folder, and on what";

pub(crate) const CHECK_DATA_HELP: &str =
    r#"The folder is that of album serve PORT --data DIR. Its newest epoch is read, as a start reads it:

  {"epoch":3,"items":4,"lines":17}

This epoch's log has 17 lines, and the next one would open with 4 items. Where a line is damaged, standard
error names the file, the line and its first byte, and the status is 1. Nothing is changed, unless
--repair-to-line is given. The epoch that is read then stays as it is, as the one before the newest."#;

pub(crate) const DUMP_ABOUT: &str = "Prints all that a running service has, as an opening";

pub(crate) const DUMP_HELP: &str =
    r#"The service at the port of 127.0.0.1 is asked for what it would leave to its next epoch, which has all
that was answered committed before. It goes on meanwhile. What is printed is an opening, for album replay or
album serve --opening. Where the service has admins, --as has to be one of them."#;

pub(crate) const SERVE_ABOUT: &str =
    "Opens a store by the lines of standard input, and answers the requests of connections to a port";

pub(crate) const SERVE_HELP: &str =
    r#"The opening is that of a replay (album replay --help). Each connection to the port of 127.0.0.1 then says
its principal in its first line, and is answered one line for each line:

  {"who":"bo@users"}
  {"ask":{"do":"read","object":"picture/0"}}
  {"pending":0}
  {"sweep":{"part":0,"stamp":65537}}
  {"trim":{"item":"picture/0","part":0}}

  {"answer":"hello","client":1}
  {"answer":"served","client":1,"content":"736561","object":"picture/0","stamp":0,"title":"Sea"}
  {"answer":"pending","stamps":[]}
  {"name":"NotPrepared","refused":17}
  {"answer":"trimmed"}"#;

pub(crate) const NO_TEXT: &str = r#"error: invalid UTF-8 was detected in one or more arguments

Usage: album <COMMAND>

For more information, try '--help'."#;
