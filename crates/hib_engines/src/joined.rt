// What the laws of the regions, the stamps and the results say to proofs, in one place. These functions do nothing.
ghost use Rattle.hib_engines.specs.Laws.{Laws};
ghost use Rattle.hib_engines.specs.Stays.{RegistryStays, StoreStays, StampsStay, ResultsStay, RegionStays, ListsLeave};

use hib_other_regions::laws as items;
use hib_query_cache::{
    no_results_stand_for_no_entry, results_answer, results_follow, results_name_the_dropped,
};
use hib_rw_region::laws as slots;
use hib_update_stamps::{stamps_answer, stamps_follow, unstamped_stand_for_no_entry};

/// What the regions, the stamps and the results promise over a journal. Most functions over engines begin with it.
pub fn laws()
    ensures { Laws }
{
    items::read_only_answers();
    items::nonstrict_answers();
    items::grows();
    items::stays();
    slots::answers();
    slots::grows();
    slots::stays();
    stamps_follow();
    unstamped_stand_for_no_entry();
    stamps_answer();
    results_follow();
    no_results_stand_for_no_entry();
    results_answer();
    results_name_the_dropped();
}

/// An entry of another part leaves each engine standing for the entries with it. Of a kill the registry and the store
/// must hear, and of a restart all.
pub fn entries_elsewhere()
    ensures registry { RegistryStays }
    ensures store { StoreStays }
    ensures stamps { StampsStay }
    ensures results { ResultsStay }
    ensures region { RegionStays }
{
    laws();
}

/// A list that is due leaves all engines as they are, whatever it is answered. So they stand for the entries with one
/// that none of them was asked, as a list that a collection answered.
pub fn lists_leave()
    ensures { ListsLeave }
{
    laws();
}
