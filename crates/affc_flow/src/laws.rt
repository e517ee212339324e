//! What the questions on trees decide. Each law is the contract of a function that does nothing.
ghost use Rattle.affc_flow.specs.Laws.{LeafNamesSource, TreeNamesSource, FlowNamesSources, FlowNamesAll};

/// A leaf names the source at each point of its rows with which no point of its questions begins.
pub fn leaf_names_source()
    ensures law { LeafNamesSource }
{}

/// A tree none of whose questions has a point names the source at each instance.
pub fn tree_names_source()
    ensures law { TreeNamesSource }
{}

/// The trees of all loads, none of whose questions has a point, name the sources throughout the context.
pub fn flow_names_sources()
    ensures law { FlowNamesSources }
{}

/// Where no question has a point anywhere, they do so whatever the quotients are, and each load of a temporary has a source.
pub fn flow_names_all()
    ensures law { FlowNamesAll }
{}
