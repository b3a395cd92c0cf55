ghost use Rattle.std.specs.Prelude.{◌≤◌, length};
ghost use Rattle.cstn_request.specs.Limits.{most_files};

/// The files of a host, by their names: from 1 to 8.
#[derive(Clone, Copy)]
pub struct HostFiles<'a> {
    pub names: &'a [String],
    pub ghost some: { 1 ≤ length names.now },
    pub ghost most: { length names.now ≤ most_files },
}
