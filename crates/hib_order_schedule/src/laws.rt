// What a script plays with the schedule of an order; for the proofs of the tools. These functions do nothing.
ghost use Rattle.hib_base.specs.Tables.{Tables};
ghost use Rattle.hib_base.specs.Valid.{max_orders, max_steps};
ghost use Rattle.hib_base.specs.declared.entries.Entry.{Entry};
ghost use Rattle.hib_base.specs.declared.scripts.Order.{Order};
ghost use Rattle.hib_base.specs.declared.scripts.Script.{Script};
ghost use Rattle.hib_journal.specs.Legal.{IsLegal};
ghost use Rattle.hib_journal.specs.Played.{is_played};
ghost use Rattle.hib_journal.specs.Runs.{IsNumbered, fault_count};
ghost use Rattle.hib_journal.specs.Sessions.{Journal};
ghost use Rattle.hib_order_law.specs.Orders.{IsRun, IsUndisturbed, onto, steps_in};
ghost use Rattle.hib_order_law.specs.declared.step.Step.{Step};
ghost use Rattle.hib_order_schedule.specs.Schedules.{is_run_or_kill, may_be_schedule, rises, runs_of, shown, steps_of, with_schedule};
ghost use Rattle.std.specs.List.{list_all};
ghost use Rattle.std.specs.Prelude.{◌≡◌, ◌≤◌, ◌++◌, ℕ, List, [], Some, length, true};

/// A run of a script is one of the script with another schedule: what a session does next and what it is answered
/// doesn't depend on the schedule.
pub fn schedules_change_no_run()
    ensures same { (script : Script) (start : Tables) (most_kills : ℕ) (os : List Order)
        (es : List Entry) → IsRun script start most_kills es
        → IsRun (with_schedule script os) start most_kills es }
{}

/// A run is played by its script with any runs and kills as schedule that are its first steps, if the steps after them
/// rise: so with all its runs and kills, and with those that a schedule has to say.
pub fn schedules_play_orders()
    ensures plays { (script : Script) (start : Tables) (most_kills : ℕ) (os : List Order)
        (tail : List Step) (es : List Entry) → IsRun script start most_kills es
        → list_all is_run_or_kill os ≡ true
        → steps_in es ≡ steps_of os ++ tail → rises tail ≡ true
        → is_played (with_schedule script os) (onto es []) ≡ true }
    ensures whole { (script : Script) (start : Tables) (most_kills : ℕ) (es : List Entry)
        → IsRun script start most_kills es
        → is_played (with_schedule script (runs_of (steps_in es))) (onto es []) ≡ true }
    ensures shown { (script : Script) (start : Tables) (most_kills : ℕ) (es : List Entry)
        → IsRun script start most_kills es
        → is_played (with_schedule script (shown (steps_in es))) (onto es []) ≡ true }
{}

/// Two journals of sessions and kills alone, without faults, that one script plays are the same: its schedule decides
/// what it plays. If the schedule has runs and kills alone, then whatever it plays without faults is such a journal.
pub fn schedules_decide()
    ensures once { (script : Script) (start : Tables) (h g : Journal)
        → IsUndisturbed script start h → IsUndisturbed script start g
        → is_played script h ≡ true → is_played script g ≡ true → h ≡ g }
    ensures undisturbed { (script : Script) (start : Tables) (h : Journal)
        → list_all is_run_or_kill script.schedule ≡ true → IsLegal script (Some start) h
        → IsNumbered h → fault_count h ≡ 0 → is_played script h ≡ true
        → IsUndisturbed script start h }
{}

/// Whatever a script with the schedule of a run plays without faults is that run.
pub fn shown_runs_come_again()
    ensures again { (script : Script) (start : Tables) (most_kills : ℕ) (es : List Entry)
        (h : Journal) → IsRun script start most_kills es
        → IsLegal (with_schedule script (shown (steps_in es))) (Some start) h
        → IsNumbered h → fault_count h ≡ 0
        → is_played (with_schedule script (shown (steps_in es))) h ≡ true
        → h ≡ onto es [] }
{}

/// Whatever a script with all runs and kills of a run plays without faults is that run.
pub fn whole_runs_come_again()
    ensures again { (script : Script) (start : Tables) (most_kills : ℕ) (es : List Entry)
        (h : Journal) → IsRun script start most_kills es
        → IsLegal (with_schedule script (runs_of (steps_in es))) (Some start) h
        → IsNumbered h → fault_count h ≡ 0
        → is_played (with_schedule script (runs_of (steps_in es))) h ≡ true
        → h ≡ onto es [] }
{}

/// Whatever a script plays without faults begins with a journal of its sessions and kills, if its schedule has the runs
/// and kills of that journal, and then others. The sessions needn't be at their ends.
pub fn schedules_begin_runs()
    ensures begins { (script : Script) (start : Tables) (es : List Entry) (more : List Order)
        (h : Journal) → IsUndisturbed script start (onto es [])
        → script.schedule ≡ runs_of (steps_in es) ++ more → list_all is_run_or_kill more ≡ true
        → IsLegal script (Some start) h → IsNumbered h → fault_count h ≡ 0
        → is_played script h ≡ true → (rest : List Entry) × (h ≡ onto rest (onto es [])) }
{}

/// The runs and kills that a schedule has to say of a run may be the schedule of its script, if there are 20,000 at
/// most and the run has 1,000,000 steps at most.
pub fn shown_runs_fit()
    ensures fits { (script : Script) (start : Tables) (most_kills : ℕ) (es : List Entry)
        → IsRun script start most_kills es
        → length (shown (steps_in es)) ≤ max_orders → length es ≤ max_steps
        → may_be_schedule (length script.sessions) (shown (steps_in es)) ≡ true }
{}
