// The laws of paths.

ghost use Rattle.mdr_paths.specs.Numbers.{numbers};
ghost use Rattle.mdr_paths.specs.Laws.{Laws, TablesServe};

/// The computed set of nodes is that of the paths, a path is the list of its nodes, the set rises, it is refused with the
/// first node that fails and by none else, and an old set serves as well as what it was made from. A table of edges
/// serves for the graph that it stands for.
pub fn paths_have_laws()
    ensures numbers { Laws numbers }
    ensures tables { TablesServe }
{}
