//! Who owns a name, and who waits for it: each answer to a request and to a release, with the list that follows
//! (D-Bus Specification, "org.freedesktop.DBus.RequestName" and "org.freedesktop.DBus.ReleaseName").
//!
//! A list has the owner first, then those who wait, each with the flags of its last request: 1 allows replacement, 2
//! replaces the owner, 4 does not wait.

ghost use Rattle.std.specs.Prelude.{◌≡◌, ◌∷◌, [], true, false, None, Some, codes};
ghost use Rattle.std.specs.FinMap as finmap;
ghost use Rattle.atspi_names.specs.Queue.{allows_replacement, replaces_existing, forbids_queueing, requested, released};
ghost use Rattle.atspi_names.specs.Queue.{stands, owner_in, owns, request_change, release_change, taken_over};
ghost use Rattle.atspi_names.specs.Queue.{IsRequestAnswer};
ghost use Rattle.atspi_names.specs.Owners.{nobody, list_of, unique_name, after_hello, after_request, after_release};
ghost use Rattle.atspi_names.specs.Owners.{after_gone, own_name, well_known, owned_by, listed, NoneTooEarly};
ghost use Rattle.atspi_bus_examples.specs.Keepings.{some_lists, two_callers, one_name};

/// Each flag is a bit of its own, and bits that the specification does not name say nothing.
pub fn flags()
    ensures allow { allows_replacement 1 ≡ true }
    ensures allow_among { allows_replacement 7 ≡ true }
    ensures allow_not { allows_replacement 6 ≡ false }
    ensures replace { replaces_existing 2 ≡ true }
    ensures replace_not { replaces_existing 5 ≡ false }
    ensures no_queue { forbids_queueing 4 ≡ true }
    ensures no_queue_not { forbids_queueing 3 ≡ false }
    ensures unnamed_allow { allows_replacement 8 ≡ false }
    ensures unnamed_replace { replaces_existing 8 ≡ false }
    ensures unnamed_no_queue { forbids_queueing 8 ≡ false }
{}

/// Nobody has the name: the connection owns it (answer 1), whatever its flags.
pub fn unowned()
    ensures plain { requested [] 1 0 ≡ ((1, 0) ∷ [], 1) }
    ensures all_flags { requested [] 1 7 ≡ ((1, 7) ∷ [], 1) }
    ensures change { request_change [] 1 4 ≡ record { answer = 1; before = None; after = Some 1 } }
    ensures not_already { requested [] 1 0 ≡ ((1, 0) ∷ [], 4) → ⊥ }
{}

/// The owner asks again (answer 4): its flags are those of this request, and who waits stays as it was.
pub fn already_owner()
    ensures same { requested ((1, 0) ∷ []) 1 0 ≡ ((1, 0) ∷ [], 4) }
    ensures flags_anew { requested ((1, 0) ∷ (2, 4) ∷ []) 1 1 ≡ ((1, 1) ∷ (2, 4) ∷ [], 4) }
    ensures flags_withdrawn { requested ((1, 1) ∷ (2, 2) ∷ []) 1 0 ≡ ((1, 0) ∷ (2, 2) ∷ [], 4) }
    ensures not_its_own_rival { requested ((1, 1) ∷ (2, 0) ∷ []) 1 6 ≡ ((1, 6) ∷ (2, 0) ∷ [], 4) }
    ensures change { request_change ((1, 0) ∷ []) 1 3 ≡ record { answer = 4; before = Some 1; after = Some 1 } }
    ensures not_new { requested ((1, 0) ∷ []) 1 0 ≡ ((1, 0) ∷ [], 1) → ⊥ }
    ensures not_old_flags { (requested ((1, 0) ∷ []) 1 1).0 ≡ (1, 0) ∷ [] → ⊥ }
{}

/// The owner allows replacement and the request replaces it (answer 1): the old owner waits first in line, unless its
/// flags say that it does not wait.
pub fn replaced()
    ensures waits_first { requested ((1, 1) ∷ (2, 0) ∷ []) 3 2 ≡ ((3, 2) ∷ (1, 1) ∷ (2, 0) ∷ [], 1) }
    ensures leaves { requested ((1, 5) ∷ (2, 0) ∷ []) 3 2 ≡ ((3, 2) ∷ (2, 0) ∷ [], 1) }
    ensures from_the_queue { requested ((1, 1) ∷ (2, 0) ∷ (3, 0) ∷ []) 3 2 ≡ ((3, 2) ∷ (1, 1) ∷ (2, 0) ∷ [], 1) }
    ensures past_leaving { requested ((1, 5) ∷ (2, 0) ∷ (3, 0) ∷ []) 3 2 ≡ ((3, 2) ∷ (2, 0) ∷ [], 1) }
    ensures no_queue_too { requested ((1, 1) ∷ []) 3 6 ≡ ((3, 6) ∷ (1, 1) ∷ [], 1) }
    ensures change { request_change ((1, 1) ∷ []) 3 2 ≡ record { answer = 1; before = Some 1; after = Some 3 } }
    ensures from_nobody { taken_over 1 4 [] ≡ (1, 4) ∷ [] }
    ensures not_last { (requested ((1, 1) ∷ (2, 0) ∷ []) 3 2).0 ≡ (3, 2) ∷ (2, 0) ∷ (1, 1) ∷ [] → ⊥ }
    ensures not_kept { (requested ((1, 5) ∷ []) 3 2).0 ≡ (3, 2) ∷ (1, 5) ∷ [] → ⊥ }
{}

/// Both have to want it: an owner that does not allow it, or a request that does not ask for it, leaves the owner. Only
/// the owner's flags count, not those of who waits.
pub fn not_replaced()
    ensures not_allowed { requested ((1, 0) ∷ []) 3 2 ≡ ((1, 0) ∷ (3, 2) ∷ [], 2) }
    ensures not_asked { requested ((1, 1) ∷ []) 3 0 ≡ ((1, 1) ∷ (3, 0) ∷ [], 2) }
    ensures own_allowance { requested ((1, 0) ∷ []) 3 3 ≡ ((1, 0) ∷ (3, 3) ∷ [], 2) }
    ensures a_waiters_allowance { requested ((1, 0) ∷ (2, 1) ∷ []) 3 2 ≡ ((1, 0) ∷ (2, 1) ∷ (3, 2) ∷ [], 2) }
    ensures not_taken { requested ((1, 0) ∷ []) 3 2 ≡ ((3, 2) ∷ (1, 0) ∷ [], 1) → ⊥ }
{}

/// The connection waits (answer 2): a new one behind all others; one that waits already keeps its place, with the flags
/// of this request.
pub fn waiting()
    ensures behind { requested ((1, 0) ∷ (2, 0) ∷ []) 3 0 ≡ ((1, 0) ∷ (2, 0) ∷ (3, 0) ∷ [], 2) }
    ensures flags_anew { requested ((1, 0) ∷ (2, 0) ∷ (3, 0) ∷ []) 2 1 ≡ ((1, 0) ∷ (2, 1) ∷ (3, 0) ∷ [], 2) }
    ensures flags_withdrawn { requested ((1, 0) ∷ (2, 3) ∷ []) 2 0 ≡ ((1, 0) ∷ (2, 0) ∷ [], 2) }
    ensures change { request_change ((1, 0) ∷ []) 2 0 ≡ record { answer = 2; before = Some 1; after = Some 1 } }
    ensures not_twice { (requested ((1, 0) ∷ (2, 0) ∷ []) 2 1).0 ≡ (1, 0) ∷ (2, 0) ∷ (2, 1) ∷ [] → ⊥ }
    ensures not_behind { (requested ((1, 0) ∷ (2, 0) ∷ (3, 0) ∷ []) 2 0).0 ≡ (1, 0) ∷ (3, 0) ∷ (2, 0) ∷ [] → ⊥ }
    ensures not_refused { (requested ((1, 0) ∷ []) 2 0).1 ≡ 3 → ⊥ }
{}

/// The connection does not wait and the name has an owner (answer 3): it is in no list, and who waited is taken out.
pub fn refused()
    ensures stays_out { requested ((1, 0) ∷ (2, 0) ∷ []) 3 4 ≡ ((1, 0) ∷ (2, 0) ∷ [], 3) }
    ensures taken_out { requested ((1, 0) ∷ (2, 0) ∷ (3, 0) ∷ []) 2 4 ≡ ((1, 0) ∷ (3, 0) ∷ [], 3) }
    ensures not_allowed { requested ((1, 0) ∷ []) 3 6 ≡ ((1, 0) ∷ [], 3) }
    ensures not_asked { requested ((1, 1) ∷ []) 3 5 ≡ ((1, 1) ∷ [], 3) }
    ensures change { request_change ((1, 0) ∷ []) 2 4 ≡ record { answer = 3; before = Some 1; after = Some 1 } }
    ensures not_queued { (requested ((1, 0) ∷ []) 3 4).0 ≡ (1, 0) ∷ (3, 4) ∷ [] → ⊥ }
    ensures not_kept { (requested ((1, 0) ∷ (2, 0) ∷ []) 2 4).0 ≡ (1, 0) ∷ (2, 0) ∷ [] → ⊥ }
{}

/// A release: by the owner, whose name goes to who waits first, or to nobody; by one who waits (answer 1); of a name
/// that nobody has (answer 2); of a name that others have (answer 3).
pub fn releases()
    ensures passed_on { released ((1, 0) ∷ (2, 4) ∷ (3, 0) ∷ []) 1 ≡ ((2, 4) ∷ (3, 0) ∷ [], 1) }
    ensures to_nobody { released ((1, 0) ∷ []) 1 ≡ ([], 1) }
    ensures by_a_waiter { released ((1, 0) ∷ (2, 0) ∷ (3, 0) ∷ []) 2 ≡ ((1, 0) ∷ (3, 0) ∷ [], 1) }
    ensures no_such_name { released [] 1 ≡ ([], 2) }
    ensures of_others { released ((1, 0) ∷ (2, 0) ∷ []) 3 ≡ ((1, 0) ∷ (2, 0) ∷ [], 3) }
    ensures change { release_change ((1, 0) ∷ (2, 0) ∷ []) 1 ≡ record { answer = 1; before = Some 1; after = Some 2 } }
    ensures change_to_nobody { release_change ((1, 0) ∷ []) 1
        ≡ record { answer = 1; before = Some 1; after = None } }
    ensures change_by_a_waiter { release_change ((1, 0) ∷ (2, 0) ∷ []) 2
        ≡ record { answer = 1; before = Some 1; after = Some 1 } }
    ensures change_by_nobody { release_change [] 2 ≡ record { answer = 2; before = None; after = None } }
    ensures waiter_is_no_stranger { (released ((1, 0) ∷ (2, 0) ∷ []) 2).1 ≡ 3 → ⊥ }
    ensures no_name_is_not_others { (released [] 1).1 ≡ 3 → ⊥ }
{}

/// Who owns a name and who stands in its list.
pub fn standing()
    ensures owner { owner_in ((1, 0) ∷ (2, 0) ∷ []) ≡ Some 1 }
    ensures no_owner { owner_in [] ≡ None }
    ensures owns_it { owns 1 ((1, 0) ∷ (2, 0) ∷ []) ≡ true }
    ensures waits_only { owns 2 ((1, 0) ∷ (2, 0) ∷ []) ≡ false }
    ensures owns_nothing { owns 0 [] ≡ false }
    ensures owner_stands { stands 1 ((1, 0) ∷ (2, 0) ∷ []) ≡ true }
    ensures waiter_stands { stands 2 ((1, 0) ∷ (2, 0) ∷ []) ≡ true }
    ensures stranger { stands 0 ((1, 0) ∷ (2, 0) ∷ []) ≡ false }
{}

/// A bus: a first Hello gives `:1.0`, the next `:1.1`; a name has the list of its last request or release, and nobody
/// stands in it when all have left.
pub fn of_a_bus()
    ensures first_name { unique_name 0 ≡ codes ":1.0" }
    ensures second_name { unique_name 1 ≡ codes ":1.1" }
    ensures named { finmap.get (after_hello nobody 5).unique 5 ≡ Some (codes ":1.0") }
    ensures given { (after_hello (after_hello nobody 5) 6).given ≡ 2 }
    ensures next_named { finmap.get (after_hello (after_hello nobody 5) 6).unique 6 ≡ Some (codes ":1.1") }
    ensures alone { list_of (after_hello nobody 5).lists (codes ":1.0") ≡ (5, 0) ∷ [] }
    ensures requested { list_of (after_request nobody 5 (codes "a.b") 1).lists (codes "a.b") ≡ (5, 1) ∷ [] }
    ensures of_no_other { list_of (after_request nobody 5 (codes "a.b") 1).lists (codes "a.c") ≡ [] }
    ensures released { list_of (after_release (after_request nobody 5 (codes "a.b") 1) 5 (codes "a.b")).lists
        (codes "a.b") ≡ [] }
    ensures unnamed { finmap.get (after_gone (after_hello nobody 5) 5).unique 5 ≡ None }
    ensures gone { list_of (after_gone (after_hello nobody 5) 5).lists (codes ":1.0") ≡ [] }
    ensures passed_on { list_of
        (after_gone (after_request (after_request nobody 5 (codes "a.b") 1) 6 (codes "a.b") 0) 5).lists (codes "a.b")
        ≡ (6, 0) ∷ [] }
{}

/// What an answer tells of the connection: 1 it owns the name now, and did not; 4 it did; 2 it waits now; 3 it stands
/// in no list.
pub fn answers()
    ensures owner { IsRequestAnswer 1 1 [] ((1, 0) ∷ []) }
    ensures already { IsRequestAnswer 4 1 ((1, 0) ∷ []) ((1, 1) ∷ []) }
    ensures waits { IsRequestAnswer 2 2 ((1, 0) ∷ []) ((1, 0) ∷ (2, 0) ∷ []) }
    ensures stays_out { IsRequestAnswer 3 2 ((1, 0) ∷ []) ((1, 0) ∷ []) }
    ensures owner_does_not_wait { IsRequestAnswer 2 1 [] ((1, 0) ∷ []) → ⊥ }
    ensures who_waits_is_no_owner { IsRequestAnswer 1 2 ((1, 0) ∷ []) ((1, 0) ∷ (2, 0) ∷ []) → ⊥ }
{}

/// The names that a bus has: its own, the unique names by the numbers of their connections, and the well-known ones by
/// their bytes; and those of these that a connection owns, not those for which it waits.
pub fn names()
    ensures own { own_name ≡ codes "org.freedesktop.DBus" }
    ensures well_known { well_known some_lists ≡ codes "a.b" ∷ codes "a.c" ∷ [] }
    ensures owned { owned_by some_lists 6 ≡ codes "a.c" ∷ [] }
    ensures listed { listed two_callers
        ≡ codes "org.freedesktop.DBus" ∷ codes ":1.1" ∷ codes ":1.0" ∷ codes "a.b" ∷ codes "a.c" ∷ [] }
{}

/// A unique name that was not given yet is nobody's: the next one, whatever was given. Those past the last number that
/// can be given are none of these.
pub fn not_yet()
    ensures next { NoneTooEarly 0 (one_name (codes ":1.0")) → ⊥ }
    ensures given { NoneTooEarly 1 (one_name (codes ":1.0")) }
    ensures last { NoneTooEarly 1 (one_name (codes ":1.4294967295")) → ⊥ }
    ensures past_all { NoneTooEarly 1 (one_name (codes ":1.4294967296")) }
{}
