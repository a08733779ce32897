// The demands on reading, as theorems; there is no code here.
