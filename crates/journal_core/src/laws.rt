// Laws of the definitions. Each is a function with nothing to do: its contract is the law.
ghost use Rattle.std.specs.Prelude.{◌≡◌, ◌≤◌, ℕ, List};
ghost use Rattle.kv_model.specs.declared.call.Entry.{Entry};
ghost use Rattle.journal_core.specs.Clients.{entries_by, text_by_client};

/// However the calls of clients follow one another, the text by clients is the same where each
/// client's own entries are the same.
pub fn text_by_client_is_one_in_every_schedule()
    ensures { (entries other : List Entry)
        → ((who : ℕ) → who ≤ 16 → entries_by who entries ≡ entries_by who other)
        → text_by_client entries ≡ text_by_client other }
{}
