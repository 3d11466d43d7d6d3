// Laws of runs, and of the tables that an image holds. The functions do nothing: their contracts are the laws.
ghost use Rattle.std.specs.Prelude.{◌≡◌, ◌≢◌, ◌<◌, ◌-◌, ◌^◌, ◌+◌, ◌||◌, ℕ, Bool, true, false, None, List, [], ◌∷◌, ◌++◌, take, drop, map, length};
ghost use Rattle.std.specs.List.{list_all, list_any};
ghost use Rattle.sector_dev.specs.Disk.{Story, Image, now, moment, LeftSince};
ghost use Rattle.sector_dev.specs.Time.{LeavesOnly};
ghost use Rattle.arrow_schema.specs.Column.{PlainSchema};
ghost use Rattle.catalogue.specs.declared.entry.Segment.{Segment};
ghost use Rattle.catalogue.specs.Entries.{PlainEntry, PlainCatalogue, is_segment, is_entry, row_count};
ghost use Rattle.store_runs.specs.Held.{rows_held, tables_held, rows_known, HeldTable, each_held, all_known, each_listed};
ghost use Rattle.store_runs.specs.Calls.{PlainCall, open_export_call, PlainReply, export_is, is_device_reply};
ghost use Rattle.store_runs.specs.Snapshots.{given, has_ended, stays_open, GivesTable};
ghost use Rattle.store_runs.specs.Machine.{Setting, Machine, halted, Allows};
ghost use Rattle.store_runs.specs.Runs.{Goes, Run};
ghost use Rattle.store_runs.specs.Since.{story_at, IsLeftFrom};
ghost use Rattle.store_runs.specs.Halting.{phase_where, tells_halt_while_open};
ghost use Rattle.store_runs.specs.History.{any_change, begun, acknowledged, Settles, SettlesAll, Keeps, tells_damage, tells_no_store};

/// An image that a stop may have left since some call of a run began was left before one of the calls from that one on, at a moment of one of them, or
/// after the last. The machine of that moment allows it.
pub fn each_stop_is_allowed()
    ensures { (s : Setting) (calls : List PlainCall) (replies : List PlainReply) (m : Machine) (old : Story) (failed : ℕ)
        (m' : Machine) (new : Story) (failed' : ℕ) (run : Run s calls replies m old failed m' new failed') (i : ℕ) (image : Image)
        → LeavesOnly (Allows s m) (now old) → LeftSince new (moment (story_at s calls replies m old failed m' new failed' run i)) image
        → IsLeftFrom s calls replies m old failed m' new failed' run i image }
{}

/// An export that is opened in a run, and reaches its end while it is open, has given the table as it was when the export was opened: its pieces, joined,
/// are a stream that means this table, whatever has changed the table since.
pub fn snapshots_give_their_table()
    ensures { (s : Setting) (name : List ℕ) (id : ℕ) (calls : List PlainCall) (replies : List PlainReply) (m : Machine) (old : Story) (failed : ℕ)
        (m' : Machine) (new : Story) (failed' : ℕ) → Run s (open_export_call name ∷ calls) (export_is id ∷ replies) m old failed m' new failed'
        → stays_open id calls replies ≡ true → has_ended id calls replies ≡ true → GivesTable s m name (given id calls replies) }
{}

/// A single call is a run, and two runs one after the other are a run.
pub fn runs_go_on()
    ensures one { (s : Setting) (call : PlainCall) (reply : PlainReply) (m next : Machine) (old new : Story) (failed failed' : ℕ)
        → Goes s m call reply old new failed failed' next → Run s (call ∷ []) (reply ∷ []) m old failed next new failed' }
    ensures joined { (s : Setting) (calls more : List PlainCall) (replies others : List PlainReply) (m mid m' : Machine) (old between new : Story)
        (failed failures failed' : ℕ) → Run s calls replies m old failed mid between failures → Run s more others mid between failures m' new failed'
        → Run s (calls ++ more) (replies ++ others) m old failed m' new failed' }
{}

/// If no call of the device failed, no reply says that one did.
pub fn undisturbed_runs_tell_no_failure()
    ensures { (s : Setting) (calls : List PlainCall) (replies : List PlainReply) (m : Machine) (old : Story) (failed : ℕ)
        (m' : Machine) (new : Story) (failed' : ℕ) → Run s calls replies m old failed m' new failed' → failed < 2 ^ 64 - 1
        → failed' ≡ failed → list_any is_device_reply replies ≡ false }
{}

/// The settled commands of a run grow by each acknowledged command, in order. Together with the command in doubt at its end they are among the command in
/// doubt before it and those that were acknowledged or whose device failed, in order. So a command that was refused for any other reason is not there.
pub fn acknowledged_commands_are_settled()
    ensures { (s : Setting) (calls : List PlainCall) (replies : List PlainReply) (m : Machine) (old : Story) (failed : ℕ)
        (m' : Machine) (new : Story) (failed' : ℕ) → Run s calls replies m old failed m' new failed'
        → Settles m.settled m'.settled m.doubt m'.doubt (acknowledged calls replies) (begun calls replies) }
{}

/// If no reply says that a device failed, the settled commands of a run grow by exactly the acknowledged commands, in order. After it no command is in doubt
/// and no store is halted.
pub fn undisturbed_runs_settle_what_was_acknowledged()
    ensures { (s : Setting) (calls : List PlainCall) (replies : List PlainReply) (m : Machine) (old : Story) (failed : ℕ)
        (m' : Machine) (new : Story) (failed' : ℕ) → Run s calls replies m old failed m' new failed' → m.doubt ≡ None → m.phase ≢ halted
        → list_any is_device_reply replies ≡ false → SettlesAll m m' (acknowledged calls replies) }
{}

/// If no store is halted at first and no reply says that a device failed, no call of a run is refused as halted while a store is open: only a failure of
/// the device halts a store.
pub fn undisturbed_runs_tell_no_halt()
    ensures { (s : Setting) (calls : List PlainCall) (replies : List PlainReply) (m : Machine) (old : Story) (failed : ℕ)
        (m' : Machine) (new : Story) (failed' : ℕ) → Run s calls replies m old failed m' new failed' → (is_open : Bool)
        → m.phase ≡ phase_where is_open
        → list_any is_device_reply replies ≡ false → tells_halt_while_open is_open calls replies ≡ false }
{}

/// No reply of a run reports that a store is damaged. No reply reports that there is no store once there was one: when the run began, or after a command,
/// a formatting or an opening that was acknowledged.
pub fn runs_tell_no_damage()
    ensures damage { (s : Setting) (calls : List PlainCall) (replies : List PlainReply) (m : Machine) (old : Story) (failed : ℕ)
        (m' : Machine) (new : Story) (failed' : ℕ) → Run s calls replies m old failed m' new failed' → list_any tells_damage replies ≡ false }
    ensures no_store { (s : Setting) (calls : List PlainCall) (replies : List PlainReply) (m : Machine) (old : Story) (failed : ℕ)
        (m' : Machine) (new : Story) (failed' : ℕ) → Run s calls replies m old failed m' new failed' → (i : ℕ)
        → (m.started || any_change (take i calls) (take i replies)) ≡ true → list_any tells_no_store (drop i replies) ≡ false }
{}

/// An image that a stop may have left since some call of a run began has the tables of settled commands: those that were settled at first, and all that
/// were acknowledged before that call, in order. Other commands among them can only be the one in doubt at first and those that were acknowledged or whose
/// device failed. Or the image has no store, if there was none before and no command, formatting or opening was acknowledged.
pub fn a_stop_keeps_what_was_acknowledged()
    ensures { (s : Setting) (calls : List PlainCall) (replies : List PlainReply) (m : Machine) (old : Story) (failed : ℕ)
        (m' : Machine) (new : Story) (failed' : ℕ) (run : Run s calls replies m old failed m' new failed') (i : ℕ) (image : Image)
        → LeavesOnly (Allows s m) (now old) → LeftSince new (moment (story_at s calls replies m old failed m' new failed' run i)) image
        → Keeps s m (any_change (take i calls) (take i replies)) (acknowledged (take i calls) (take i replies)) (begun calls replies) image }
{}

/// The rows of tables one by one, also of those that can't be read. `count`: a table has as many as the catalogue counts; so a catalogue lists each table as
/// it is held (`listed`). `rows`: if all are known, they are the rows of the table, and otherwise it can't be read. `tables`: so two images that hold the same
/// of each table hold the same tables.
pub fn tables_are_held_row_by_row()
    ensures count { (image : Image) (e : PlainEntry) → length (rows_known e.schema e.segments image) ≡ row_count e }
    ensures listed { (image : Image) (c : PlainCatalogue)
        → map (λ (t : HeldTable). (t.name, t.schema, length t.rows)) (each_held image c) ≡ each_listed c }
    ensures rows { (schema : PlainSchema) (segments : List Segment) (image : Image) → list_all is_segment segments ≡ true
        → rows_held schema segments image ≡ all_known (rows_known schema segments image) }
    ensures tables { (before after : Image) (c d : PlainCatalogue) → list_all is_entry c ≡ true → list_all is_entry d ≡ true
        → each_held before c ≡ each_held after d → tables_held before c ≡ tables_held after d }
{}
