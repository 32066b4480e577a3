//! A pool of buffers: threads format lines of a text, each in a buffer that earlier lines have
//! grown.
use std::alloc::AllocError;
use std::io::Write;
use std::sync::Wait;
use thread_local::thread_id::LocalError;
use thread_local_pool::Pool;

/// Appends a line as a page may show it, with `<` and `&` written out.
fn escape(line: &str, page: &mut Vec<u8>) -> Result<(), AllocError> {
    for byte in line.as_bytes() {
        match *byte {
            b'<' => page.extend_from_slice(b"&lt;")?,
            b'&' => page.extend_from_slice(b"&amp;")?,
            byte => page.push(byte)?,
        }
    }
    Ok(())
}

/// How many bytes the lines have on a page. It asks for no memory once the buffers of all threads
/// are large enough.
pub fn size_on_page<R: Wait>(
    pool: &Pool<Vec<u8>>,
    rt: &R,
    lines: &[&str],
) -> Result<usize, LocalError> {
    let mut bytes = 0usize;
    for line in lines {
        let mut buffer = pool.buffer(rt)?;
        escape(line, buffer.bytes_mut())?;
        bytes = bytes.wrapping_add(buffer.bytes().len());
    }
    Ok(bytes)
}

/// Whether a line is the heading of this chapter. `write!` appends to a buffer as to any writer, and
/// fails only where memory is out.
pub fn is_heading<R: Wait>(
    pool: &Pool<Vec<u8>>,
    rt: &R,
    line: &str,
    chapter: u64,
) -> Result<bool, LocalError> {
    let mut buffer = pool.buffer(rt)?;
    write!(buffer.bytes_mut(), "Chapter {chapter}").map_err(|_| AllocError)?;
    Ok(buffer.bytes().as_slice() == line.as_bytes())
}

#[cfg(test)]
mod tests {
    use super::*;
    use std::thread;

    #[test]
    fn threads_format_their_lines(rt: HostRuntime) {
        let pool = Pool::new(rt.alloc());
        let sizes = thread::join(
            &rt,
            || size_on_page(&pool, &rt, &["a < b", "b & c"]),
            || size_on_page(&pool, &rt, &["plain", ""]),
        );
        assert!(rt; sizes == (Ok(17), Ok(5)));
    }

    #[test]
    fn a_number_is_formatted_into_a_buffer(rt: HostRuntime) {
        let pool = Pool::new(rt.alloc());
        let told = (
            is_heading(&pool, &rt, "Chapter 12", 12),
            is_heading(&pool, &rt, "Chapter 12", 1),
        );
        assert!(rt; told == (Ok(true), Ok(false)));
    }
}
