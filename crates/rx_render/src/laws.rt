//! Properties of both forms that follow from the definitions alone.
ghost use Rattle.rx_render.specs.Law.{LaidSpells, LinksAreOwnParts, OrderListsParts};

/// The text of a tree over several lines spells this tree.
pub fn laid_text()
    ensures spells { LaidSpells }
{}

/// A whole graph has one node for each different part and no other. The edges from a node lead to
/// its own parts.
pub fn graph_nodes()
    ensures parts { OrderListsParts }
    ensures links { LinksAreOwnParts }
{}
