//! Laws of what a host contains, each the contract of a function that does nothing.
ghost use Rattle.std.specs.Prelude.{◌≡◌, ◌≢◌, ℕ, ◌≤◌, ◌⊎◌, ◌++◌, List, length, Some};
ghost use Rattle.kv_host.specs.declared.interface.HostFault.{HostFault};
ghost use Rattle.kv_host.specs.Contents.{HostContents, file_at, with_file, with_printed};
ghost use Rattle.base_core.specs.Counts.{Rose};
ghost use Rattle.kv_host.specs.Refusal.{ReadRefusal};

/// A file that was written is the one that is there, and every other file is as before.
pub fn a_written_file_is_there()
    ensures same { (name bytes : List ℕ) (c : HostContents)
        → file_at name (with_file name bytes c) ≡ Some bytes }
    ensures other { (name other bytes : List ℕ) (c : HostContents) → other ≢ name
        → file_at other (with_file name bytes c) ≡ file_at other c }
{}

/// What is printed in two calls is what is printed in one.
pub fn prints_add_up()
    ensures { (a b : List ℕ) (c : HostContents)
        → with_printed b (with_printed a c) ≡ with_printed (a ++ b) c }
{}

/// A file of a told host that is within the limit is refused only by a fault, at which the count
/// rose, or for want of memory.
pub fn a_short_file_is_refused_by_faults_alone()
    ensures { (c : HostContents) (name bytes : List ℕ) (limit before after : ℕ) (e : HostFault) →
        file_at name c ≡ Some bytes → length bytes ≤ limit →
        ReadRefusal (Some c) name limit before after e →
        ((e ≡ HostFault.Fault) × Rose before after) ⊎ (e ≡ HostFault.Memory) }
{}
