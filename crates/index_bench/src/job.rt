/// What is done, and how often.
#[derive(Debug, Drop)]
pub enum Job<'a> {
    /// The file is copied.
    Copy(u32),
    /// A copy of the file is parsed.
    Parse(u32),
    /// The content of the file is encoded.
    Encode(u32),
    /// The declared types whose names begin so are looked for.
    Prefix(u32, &'a str),
    /// The declared types of this name are looked for.
    Exact(u32, &'a str),
}

/// The job that the words after the program's name say.
pub fn job_of<'a>(words: &'a [String]) -> Option<Job<'a>> {
    match words {
        [_, operation, times] => file_job(operation.as_str(), times.as_str().parse().ok()?),
        [_, operation, times, name] => {
            query_job(
                operation.as_str(),
                times.as_str().parse().ok()?,
                name.as_str(),
            )
        }
        _ => None,
    }
}

fn file_job<'a>(operation: &str, times: u32) -> Option<Job<'a>> {
    match operation {
        "copy" => Some(Job::Copy(times)),
        "parse" => Some(Job::Parse(times)),
        "encode" => Some(Job::Encode(times)),
        _ => None,
    }
}

fn query_job<'a>(operation: &str, times: u32, name: &'a str) -> Option<Job<'a>> {
    match operation {
        "prefix" => Some(Job::Prefix(times, name)),
        "exact" => Some(Job::Exact(times, name)),
        _ => None,
    }
}
