// Laws of sorting by keys.
ghost use Rattle.gx_sorting.specs.Laws.{EmptyKeysStandApart, ImagesAreSorted, KeysStandAsCompared, NumbersAreOfSortedTuples, OrdersAreTotal, SortingIsStable};

/// Keys with values that the language compares stand in that order, or where the order descends in the other one (XQuery 1.0,
/// sections 3.5.1 and 3.8.3).
pub fn keys_stand_as_compared()
    ensures { KeysStandAsCompared }
{}

/// The empty key stands below each value or above each, and where the order descends behind each or before each (XQuery 1.0,
/// section 3.8.3).
pub fn empty_keys_stand_apart()
    ensures { EmptyKeysStandApart }
{}

/// The orders of values, of keys and of rows of keys are total orders.
pub fn orders_are_total()
    ensures { OrdersAreTotal }
{}

/// What is sorted has the elements of the list, in order, and those that tie as they stood in the list; it is the one such list.
pub fn sorting_is_stable<T>()
    ensures { SortingIsStable T }
{}

/// Sorting elements by their images sorts the images.
pub fn images_are_sorted<T, U>()
    ensures { ImagesAreSorted T U }
{}

/// Where each tuple has a key for each order, the sorted numbers of the tuples are the numbers of the sorted tuples.
pub fn numbers_are_of_sorted_tuples<T>()
    ensures { NumbersAreOfSortedTuples T }
{}
