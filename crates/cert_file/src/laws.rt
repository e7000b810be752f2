ghost use Rattle.cert_file.specs.Laws.{WrittenIsLine, WrittenIsRead, ReadIsWritable, ReadHasFormsWithTree};
ghost use Rattle.cert_file.specs.Laws.{FileIsOfOne, FileHasOneFault, FileHasNoFault, FileHasAnswer};

/// What is written is a line, and a file of the certificate, and what is read can be written, also with another tree
/// whose leaves are bare. A file is of one certificate, and other bytes have one fault, out of memory aside.
pub fn laws_of_certificates()
    ensures written_is_line { WrittenIsLine }
    ensures written_is_read { WrittenIsRead }
    ensures read_is_writable { ReadIsWritable }
    ensures read_has_forms_with_tree { ReadHasFormsWithTree }
    ensures file_is_of_one { FileIsOfOne }
    ensures file_has_one_fault { FileHasOneFault }
    ensures file_has_no_fault { FileHasNoFault }
    ensures file_has_answer { FileHasAnswer }
{}
