//! The style sheet of a page.

/// Colours for the tags of highlighting, for errors and for the numbers of lines, light or dark by the
/// reader's setting.
pub const STYLE: &str = ":root {
  color-scheme: light dark;
  --typ-text: #1f2328;
  --typ-ground: #ffffff;
  --typ-quiet: #59636e;
  --typ-comment: #57606a;
  --typ-escape: #0a6570;
  --typ-link: #0550ae;
  --typ-raw: #6e4a12;
  --typ-label: #0a6570;
  --typ-heading: #1a4f9c;
  --typ-marker: #8a3ffc;
  --typ-math: #1a6b3c;
  --typ-key: #b3261e;
  --typ-num: #9a3d00;
  --typ-str: #116329;
  --typ-func: #6639ba;
  --typ-pol: #8250df;
  --typ-error-text: #a40e26;
  --typ-error-ground: #ffe9ec;
  --typ-warning-text: #8a5a00;
  --typ-warning-ground: #fff4d3;
}

@media (prefers-color-scheme: dark) {
  :root {
    --typ-text: #e6edf3;
    --typ-ground: #14181d;
    --typ-quiet: #9aa4af;
    --typ-comment: #98a2ad;
    --typ-escape: #6fd3dd;
    --typ-link: #79b8ff;
    --typ-raw: #e3b778;
    --typ-label: #6fd3dd;
    --typ-heading: #8ab8ff;
    --typ-marker: #c9a7ff;
    --typ-math: #7fd6a0;
    --typ-key: #ff8f87;
    --typ-num: #ffb27d;
    --typ-str: #8fd69b;
    --typ-func: #d2b4ff;
    --typ-pol: #c4a5ff;
    --typ-error-text: #ff9aa8;
    --typ-error-ground: #4a1b25;
    --typ-warning-text: #f0c36d;
    --typ-warning-ground: #40330f;
  }
}

body {
  margin: 0;
  background: var(--typ-ground);
  color: var(--typ-text);
}

pre {
  margin: 0;
  padding: 1rem 1rem 1rem 5rem;
  font: 1rem/1.55 ui-monospace, 'DejaVu Sans Mono', Menlo, Consolas, monospace;
  tab-size: 4;
  white-space: pre-wrap;
  overflow-wrap: anywhere;
}

code { font: inherit; }

.line {
  display: inline-block;
  width: 3rem;
  margin-left: -4rem;
  padding-right: 1rem;
  color: var(--typ-quiet);
  font-weight: normal;
  text-align: right;
  text-decoration: none;
  user-select: none;
}

.line::before { content: attr(data-line); }
.line:target { color: var(--typ-text); font-weight: bold; }

.error {
  background: var(--typ-error-ground);
  text-decoration: underline wavy var(--typ-error-text);
}

.warning {
  background: var(--typ-warning-ground);
  text-decoration: underline wavy var(--typ-warning-text);
}

/* What is about no text stands between two characters, and takes no room. */
.point { position: relative; }

.point::before {
  content: '‸';
  position: absolute;
  left: -0.5ch;
  color: var(--typ-error-text);
  font-weight: bold;
}

.typ-comment { color: var(--typ-comment); font-style: italic; }
.typ-punct { color: var(--typ-quiet); }
.typ-escape { color: var(--typ-escape); }
.typ-strong { font-weight: bold; }
.typ-emph { font-style: italic; }
.typ-link { color: var(--typ-link); text-decoration: underline; }
.typ-raw { color: var(--typ-raw); }
.typ-label { color: var(--typ-label); }
.typ-ref { color: var(--typ-label); }
.typ-heading { color: var(--typ-heading); font-weight: bold; }
.typ-marker { color: var(--typ-marker); font-weight: bold; }
.typ-term { font-weight: bold; }
.typ-math-delim { color: var(--typ-math); font-weight: bold; }
.typ-math-op { color: var(--typ-math); }
.typ-math-group { color: var(--typ-quiet); }
.typ-key { color: var(--typ-key); }
.typ-op { color: var(--typ-key); }
.typ-num { color: var(--typ-num); }
.typ-str { color: var(--typ-str); }
.typ-func { color: var(--typ-func); }
.typ-pol { color: var(--typ-pol); }
";
