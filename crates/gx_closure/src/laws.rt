// Laws of closures.

ghost use Rattle.gx_closure.specs.Laws.{ClosuresAreLeast};

/// Where given values, and all that any value leads to, are among a list, the closure holds the given values and is closed, no two
/// values of it are equal, and each closed list that holds the given values has them.
pub fn closures_are_least<T: Eq>()
    ensures { ClosuresAreLeast T.eq }
{}
