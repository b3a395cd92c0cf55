//! How the graph, the root and the document are read, one element after the other. Each way has a type, to which the laws of
//! `cstn_element` are applied.

use cstn_element::ElementReading;

/// How the graph is read.
pub struct GraphReading;

impl ElementReading for GraphReading {
    ghost use Rattle.std.specs.Prelude.{refl};
    ghost use Rattle.cstn_graphml.specs.DrawnGraph.{DrawnGraph};
    ghost use Rattle.cstn_graphml.specs.DrawnGraphSeen.{graph_seen};
    ghost use Rattle.cstn_graphml.specs.Kept.{kept_graph_reading};
    ghost use Rattle.cstn_graphml.specs.declared.drawn_graph.DrawnGraph.{DrawnGraph as Lent};

    ghost State = { DrawnGraph };

    ghost Found = { DrawnGraph };

    ghost Answer = { Lent };

    ghost seen = { graph_seen };

    ghost reading = { kept_graph_reading };

    ghost blanks = { λ s at raw. refl };
}

/// How the root is read.
pub struct RootReading;

impl ElementReading for RootReading {
    ghost use Rattle.std.specs.Prelude.{refl, Option};
    ghost use Rattle.cstn_graphml.specs.DrawnGraph.{DrawnGraph};
    ghost use Rattle.cstn_graphml.specs.DrawnGraphSeen.{graph_seen};
    ghost use Rattle.cstn_graphml.specs.Kept.{kept_root_reading};
    ghost use Rattle.cstn_graphml.specs.declared.drawn_graph.DrawnGraph.{DrawnGraph as Lent};

    ghost State = { Option DrawnGraph };

    ghost Found = { DrawnGraph };

    ghost Answer = { Lent };

    ghost seen = { graph_seen };

    ghost reading = { kept_root_reading };

    ghost blanks = { λ s at raw. refl };
}

/// How the document is read.
pub struct DocumentReading;

impl ElementReading for DocumentReading {
    ghost use Rattle.std.specs.Prelude.{refl, Option};
    ghost use Rattle.cstn_graphml.specs.DrawnGraph.{DrawnGraph};
    ghost use Rattle.cstn_graphml.specs.DrawnGraphSeen.{graph_seen};
    ghost use Rattle.cstn_graphml.specs.Kept.{kept_document_reading};
    ghost use Rattle.cstn_graphml.specs.declared.drawn_graph.DrawnGraph.{DrawnGraph as Lent};

    ghost State = { Option DrawnGraph };

    ghost Found = { DrawnGraph };

    ghost Answer = { Lent };

    ghost seen = { graph_seen };

    ghost reading = { kept_document_reading };

    ghost blanks = { λ s at raw. refl };
}
