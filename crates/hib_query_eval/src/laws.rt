// A law on what a query gives, for proofs: it depends only on the tables that the query reads.
ghost use Rattle.std.specs.Prelude.{◌≡◌, List, false};
ghost use Rattle.std.specs.List.{list_any};
ghost use Rattle.hib_journal.specs.Types.{Change, Query};
ghost use Rattle.hib_base.specs.Tables.{Tables, key_of, after_changes};
ghost use Rattle.hib_journal.specs.Query.{gives, reads};

/// Changes of other tables than a query reads leave what the query gives.
pub fn other_tables_leave_what_is_given()
    ensures { (q : Query) (changes : List Change) (t : Tables)
        → list_any (λ c. reads q (key_of c).entity) changes ≡ false
        → gives q (after_changes changes t) ≡ gives q t }
{}
