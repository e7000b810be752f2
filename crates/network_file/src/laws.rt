//! Laws of network files.
ghost use Rattle.network_file.specs.Laws.{PrintedIsRead, FileIsOfOne};
ghost use Rattle.network_file.specs.Laws.{FileHasOneFault, FileHasNoFault, FileHasAnswer};

/// The canonical text of a network is a network file, of that network.
pub fn printed_network_is_read()
    ensures { PrintedIsRead }
{}

/// A text is the file of one network at most.
pub fn file_is_of_one_network()
    ensures { FileIsOfOne }
{}

/// A text has one fault at most, out of memory aside, a network file has none, and any other text has one.
pub fn file_has_one_answer()
    ensures one { FileHasOneFault }
    ensures none { FileHasNoFault }
    ensures some { FileHasAnswer }
{}
