//! The text of a replay: laws of it.
ghost use Rattle.std.specs.Prelude.{◌≡◌, ◌++◌, List, [], ℕ, codes};
ghost use Rattle.album_lines.specs.Lines.{Line, ended};
ghost use Rattle.album_world.specs.Past.{World};
ghost use Rattle.album_replay.specs.Promise.{IsAsPromised, IsSpelledBy};
ghost use Rattle.album_replay.specs.Replay.{Epoch, Stage, Unopened, Running, Over, Replays, IsReplay, replay_text};
ghost use Rattle.album_replay.specs.WorkedOpening.{owners_all, trip_opened, trip_rooted};
ghost use Rattle.album_judge.specs.Writes.{IsPrefixOf};

/// A law: each input has a text. It is computed, where memory runs out on each restart and never else.
pub fn replays_are_computed()
    ensures { (input : List ℕ) → IsReplay input (replay_text input) }
{}

/// A law: what was printed stays, whatever comes after it.
pub fn replays_go_on()
    // The text of lines and of more lines after them is their texts, one after the other.
    ensures more { (stage between last : Stage) (lines more : List Line) (text others : List ℕ)
        → Replays stage lines between text → Replays between more last others
        → Replays stage (lines ++ more) last (text ++ others) }

    // That of the lines that have ended is a prefix of a text of the whole input.
    ensures prefix { (given later text : List ℕ) (stage : Stage)
        → Replays Unopened (ended given) stage text → IsPrefixOf (IsReplay (given ++ later)) text }

    // Once an opening was refused, nothing more is printed.
    ensures over { (lines : List Line) → Replays Over lines Over [] }
{}

/// A law: what is printed of an input keeps the promise. Each part of it is a refusal, or that the next epoch opens on
/// what the one before carries, or an output of the world that the lines before it spell. On that world all promises
/// hold, and what is printed as an answer is the one answer to its client's last request.
pub fn what_replay_prints()
    ensures { (input text : List ℕ) → IsReplay input text → IsAsPromised input text }
{}

/// A law: the world of a replay in progress is the run of its epoch's opening and of events that its lines spell; and
/// its lines led to that epoch.
pub fn a_replay_runs_what_its_lines_spell()
    ensures { (lines : List Line) (epoch : Epoch) (world : World) (text : List ℕ)
        → Replays Unopened lines (Running epoch world) text → IsSpelledBy lines epoch world }
{}

/// A law: texts of replays that were worked out by hand.
pub fn worked_replays()
    ensures nothing_at_all { replay_text [] ≡ codes "{\"name\":\"BadOpening\",\"refused\":22}\n" }
    ensures no_begin { replay_text (codes "{\"open\":{\"parts\":1}}\n \n")
        ≡ codes "{\"name\":\"BadOpening\",\"refused\":22}\n" }
    ensures no_header { replay_text (codes "{\"begin\":true}\n{\"deliver\":1}\n")
        ≡ codes "{\"name\":\"BadRequest\",\"refused\":3}\n" }

    // A range prints nothing of a message that is not there, and the input ends in the middle of a line.
    ensures no_such_message { replay_text
        (codes "{\"open\":{\"parts\":1}}\n{\"begin\":true}\n{\"deliver\":[1,9]}\n{\"deliver\":9}\n{\"deliver\":")
        ≡ codes "{\"name\":\"NoSuchMessage\",\"refused\":14}\n{\"name\":\"BadLine\",\"refused\":2}\n" }
    ensures stopped_twice { replay_text
        (codes "{\"open\":{\"parts\":1}}\n{\"begin\":true}\n{\"stop\":1}\n{\"stop\":1}\n")
        ≡ codes "{\"name\":\"Stopped\",\"refused\":16}\n" }

    // A read in a trace.
    ensures traced { replay_text
        (trip_opened (codes "true") owners_all
        ++ codes "{\"ask\":{\"do\":\"read\",\"object\":\"picture/0\"},\"client\":2,\"who\":\"bo@users\"}\n"
        ++ codes "{\"deliver\":1}\n"
        ++ codes "{\"deliver\":2}\n")
        ≡ codes "{\"from\":\"c2\",\"item\":\"picture/0\",\"k\":1,\"say\":\"get\",\"stamps\":[],\"tag\":1,"
        ++ codes "\"to\":\"p0\"}\n"
        ++ codes "{\"from\":\"p0\",\"item\":\"picture/0\",\"k\":2,\"say\":\"version\",\"stamp\":0,\"tag\":1,"
        ++ codes "\"to\":\"c2\",\"value\":{\"content\":\"736561\",\"group\":0,\"home\":0,\"list\":0,"
        ++ codes "\"owner\":\"amy@users\",\"title\":\"Sea\"}}\n"
        ++ codes "{\"from\":\"c2\",\"item\":\"picture/0\",\"k\":3,\"say\":\"get\",\"stamps\":[0],\"tag\":2,"
        ++ codes "\"to\":\"p0\"}\n" }

    // A picture gets another title, and is read.
    ensures written_and_read { replay_text
        (trip_opened (codes "false") owners_all
        ++ codes "{\"ask\":{\"do\":\"retitle\",\"object\":\"picture/0\",\"title\":\"Bay\"},\"client\":1,"
        ++ codes "\"who\":\"amy@users\"}\n"
        ++ codes "{\"deliver\":[1,20]}\n"
        ++ codes "{\"ask\":{\"do\":\"read\",\"object\":\"picture/0\"},\"client\":2,\"who\":\"bo@users\"}\n"
        ++ codes "{\"deliver\":[21,36]}\n")
        ≡ codes "{\"answer\":\"committed\",\"client\":1,\"stamp\":65537}\n"
        ++ codes "{\"answer\":\"served\",\"client\":2,\"content\":\"736561\",\"object\":\"picture/0\","
        ++ codes "\"stamp\":65537,\"title\":\"Bay\"}\n" }

    // What only its owner may do root does, and nobody else.
    ensures rooted { replay_text
        (trip_rooted owners_all
        ++ codes "{\"ask\":{\"do\":\"retitle\",\"object\":\"picture/0\",\"title\":\"Bay\"},\"client\":1,"
        ++ codes "\"who\":\"eve@users\"}\n"
        ++ codes "{\"deliver\":[1,20]}\n"
        ++ codes "{\"ask\":{\"do\":\"retitle\",\"object\":\"picture/0\",\"title\":\"Cove\"},\"client\":2,"
        ++ codes "\"who\":\"bo@users\"}\n"
        ++ codes "{\"deliver\":[21,36]}\n")
        ≡ codes "{\"answer\":\"committed\",\"client\":1,\"stamp\":65537}\n"
        ++ codes "{\"answer\":\"denied\",\"client\":2,\"reasons\":[[\"picture/0\",256,\"end\"]]}\n" }

    ensures anonymous_adds { replay_text
        (trip_opened (codes "false") owners_all
        ++ codes "{\"ask\":{\"album\":\"album/0\",\"content\":\"\",\"do\":\"add_picture\",\"title\":\"\"},"
        ++ codes "\"client\":1,\"who\":\"ANONYMOUS@\"}\n"
        ++ codes "{\"deliver\":1}\n")
        ≡ codes "{\"name\":\"NoOwner\",\"refused\":9}\n"
        ++ codes "{\"name\":\"NoSuchMessage\",\"refused\":14}\n" }

    // A read is noted.
    ensures noted { replay_text
        (trip_opened (codes "false") (codes "[\"audit\",\"bo@users\",1,48]")
        ++ codes "{\"ask\":{\"do\":\"read\",\"object\":\"picture/0\"},\"client\":2,\"who\":\"bo@users\"}\n"
        ++ codes "{\"deliver\":[1,16]}\n")
        ≡ codes "{\"alarm\":false,\"audit\":0,\"client\":2,\"mask\":1,\"object\":\"picture/0\","
        ++ codes "\"success\":true}\n"
        ++ codes "{\"answer\":\"served\",\"client\":2,\"content\":\"736561\",\"object\":\"picture/0\",\"stamp\":0,"
        ++ codes "\"title\":\"Sea\"}\n" }
{}
